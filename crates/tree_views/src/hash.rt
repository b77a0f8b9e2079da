//! Hashes of the pairs that a cursor has left.
ghost use Rattle.std.specs.Prelude.{◌≡◌, ◌++◌};
ghost use Rattle.std.specs.List.{flat_map, fold};
ghost use Rattle.tree_model.specs.Rest.{HasBegun, rest};
ghost use Rattle.tree_model.specs.declared.way.Way.TheVariants.{On};

use std::hash::{Hash, Hasher};
use tree_cursors::iter::IterOf;
use tree_model::IndexKey;

/// Feeds the pairs that a cursor has left on its way on.
pub fn feed<'t, K: IndexKey + Hash + 't, V: Drop + Hash + 't, H: Hasher, const LEN: usize>(
    pairs: IterOf<'t, K, V, LEN>,
    state: &mut H,
)
    requires { HasBegun K.cmp On pairs }
    ensures { state.new ≡ fold H.write state.old
        (flat_map (λ p. K.hash_input p.0 ++ V.hash_input p.1) (rest K.cmp On pairs.entry)) }
{
    let mut pairs = pairs;
    while let Some((key, value)) = pairs.next() {
        key.hash(state);
        value.hash(state);
    }
}
