//! Pairs and bounds, as C sees them.
ghost use Rattle.std.specs.Prelude.{◌≡◌};
ghost use Rattle.tree_model.specs.Rest.{lent};
ghost use Rattle.tree_index_c.specs.Answers.{Writes};
ghost use Rattle.tree_index_c.specs.Pairs.{bound_at, pair_of};

use crate::status::{NO, YES};
use std::ops::Bound;

/// A key and a value.
#[repr(C)]
#[derive(Clone, Copy)]
pub struct Pair {
    pub key: u64,
    pub value: u64,
}

/// Returns a bound by its kind: 1 includes its key, 2 excludes it, and any other kind is no bound.
pub fn bound_of(kind: u8, key: u64) -> Bound<u64>
    ensures { result ≡ bound_at kind key }
{
    match kind {
        1 => Bound::Included(key),
        2 => Bound::Excluded(key),
        _ => Bound::Unbounded,
    }
}

/// Writes a pair, if there is one.
pub fn write_pair(pair: Option<(u64, u64)>, place: &mut Pair) -> i32
    ensures { Writes pair result (pair_of place.old) (pair_of place.new) }
{
    let Some((key, value)) = pair else {
        return NO;
    };
    *place = Pair { key, value };
    YES
}

/// Writes the pair that a look-up found, if there is one.
pub fn write_lent(pair: Option<(&u64, &u64)>, place: &mut Pair) -> i32
    ensures { Writes (lent pair.entry) result (pair_of place.old) (pair_of place.new) }
{
    write_pair(pair.map(|(key, value)| (*key, *value)), place)
}

/// Writes a value, if there is one.
pub fn write_value(value: Option<u64>, place: &mut u64) -> i32
    ensures { Writes value result place.old place.new }
{
    let Some(value) = value else {
        return NO;
    };
    *place = value;
    YES
}
