//! Samples by time, of which the old ones go.
ghost use Rattle.std.specs.Prelude.{◌≡◌, ◌<◌, ◌≤◌, ℕ, IsTrue, false, IfOk};
ghost use Rattle.std.specs.Ordering.{nat_cmp};
ghost use Rattle.tree_model.specs.Pairs.{IsAbsent, pair_at, put};

use std::alloc::{AllocError, Global};
use std::ops::Bound;
use tree_index::TreeIndex;
use tree_model::laws::edits_are_found;

/// Removes every sample from before a time.
pub fn forget_before(samples: &mut TreeIndex<u64, u64>, time: u64)
    ensures forgotten { (at : ℕ) → at < time → IsAbsent nat_cmp samples.new.pairs at }
    ensures kept { (at : ℕ) → time ≤ at → pair_at nat_cmp samples.new.pairs at ≡ pair_at nat_cmp samples.old.pairs at }
{
    edits_are_found::<u64, u64>();
    samples.remove_range_sync((Bound::Unbounded, Bound::Excluded(&time)));
}

/// Returns a copy of the samples. Returns `Err` if an allocation is refused.
pub fn snapshot(
    samples: &TreeIndex<u64, u64>,
    alloc: Global,
) -> Result<TreeIndex<u64, u64>, AllocError>
    ensures { IfOk result (λ copy. copy.pairs ≡ samples.now.pairs) }
{
    samples.try_clone(alloc)
}

/// Stores a sample. While a write is spare it can't be refused.
pub fn store_spare(samples: &mut TreeIndex<u64, u64>, time: u64, value: u64)
    requires { 0 < samples.old.spare }
    ensures { samples.new.pairs ≡ put nat_cmp samples.old.pairs time value }
{
    let Ok(()) = samples.upsert_sync(time, value) else {
        unreachable!()
    };
}

/// Stores a sample if that is sure to allocate nothing. Returns whether it did.
pub fn store_if_spare(samples: &mut TreeIndex<u64, u64>, time: u64, value: u64) -> bool
    ensures stored { IsTrue result → samples.new.pairs ≡ put nat_cmp samples.old.pairs time value }
    ensures left { result ≡ false → samples.new.pairs ≡ samples.old.pairs }
{
    samples.spare() > 0 && samples.upsert_sync(time, value).is_ok()
}
