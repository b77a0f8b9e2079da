//! The last pair within two bounds.
ghost use Rattle.std.specs.Prelude.{List, filter};
ghost use Rattle.std.specs.Map.Iter.{TakesLast};
ghost use Rattle.tree_model.specs.Pairs.{IsAscending, high_of, low_of, within};
ghost use Rattle.tree_model.specs.Rest.{lent_entry};

use std::ops::Bound;
use tree_index::{IndexKey, TreeIndexOf};

/// Returns the last pair whose key is within two bounds. Descends once.
pub fn last_within<'t, K: IndexKey, V: Drop, const LEN: usize>(
    index: &'t TreeIndexOf<K, V, LEN>,
    bounds: (Bound<&'t K>, Bound<&'t K>),
) -> Option<(&'t K, &'t V)>
    ensures ascending { IsAscending K.cmp index.now.pairs }
    ensures last { (front : List (K × V)) × TakesLast lent_entry
        (filter (λ pair. within K.cmp (low_of bounds.entry) (high_of bounds.entry) pair.0) index.now.pairs) result front }
{
    index.range(bounds).next_back()
}
