//! The end of a sharing that the tests expect to succeed.
ghost use Rattle.std.specs.Prelude.{◌≡◌, ◌+◌, ◌<◌, IfSome, IfNone, vec_len};
ghost use Rattle.std.specs.Ordering.{nat_cmp};
ghost use Rattle.tree_model.specs.History.{IsHistoryOf};
ghost use Rattle.tree_state.specs.Tallies.{sum_of};

use tree_shared::{Books, Closed, PassOf, SharedOver};

/// Closes a shared index with its passes. Returns `None` if a pass is absent; the index and the
/// passes end then.
pub fn closed_with<B: Books>(
    shared: SharedOver<u64, u64, B, 15>,
    passes: Vec<PassOf<B>>,
) -> Option<Closed<u64, u64>>
    ensures replays { IfSome result
        (λ closed. IsHistoryOf nat_cmp (λ n. n) (λ n. n) closed.history.items closed.index.pairs) }
    ensures tally { IfSome result (λ closed. closed.tally ≡ sum_of passes.items) }
    ensures missing { IfNone result (vec_len passes + 1 < B.calls.parts) }
{
    match shared.close(passes) {
        Ok(closed) => Some(closed),
        Err(_) => None,
    }
}
