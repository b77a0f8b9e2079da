//! Laws of cursors, each as the contract of a small function: a cursor that was never moved gives
//! all pairs within its bounds, in order, from either end.
ghost use Rattle.std.specs.Prelude.{◌≡◌, IfOk, map, reverse};
ghost use Rattle.tree_model.specs.Rest.{lent_entry, Moves};
ghost use Rattle.tree_model.specs.Ways.{along};
ghost use Rattle.tree_cursors.specs.Ranged.{IsFresh, pairs_within, way_of};

use crate::cursor::Cursor;
use std::alloc::{AllocError, Global};

/// Moves the forward end until it gives no pair, and returns what it gave: all pairs within the
/// bounds, in ascending order. Returns `Err` if it cannot allocate the list. The caller must pass a
/// cursor that was never moved.
pub fn pairs_ascending<'t, K: Ord + Drop + 't, V: Drop + 't, C: Cursor<'t, K, V>>(
    alloc: Global,
    cursor: &mut C,
) -> Result<Vec<(&'t K, &'t V)>, AllocError>
    requires { IsFresh (C.cursor cursor.old) }
    ensures { IfOk result (λ pairs. map lent_entry pairs.items ≡ pairs_within K.cmp (C.cursor cursor.old)) }
{
    pairs_along(alloc, false, cursor)
}

/// Moves the backward end until it gives no pair, and returns what it gave: all pairs within the
/// bounds, in descending order. Returns `Err` if it cannot allocate the list. The caller must pass
/// a cursor that was never moved.
pub fn pairs_descending<'t, K: Ord + Drop + 't, V: Drop + 't, C: Cursor<'t, K, V>>(
    alloc: Global,
    cursor: &mut C,
) -> Result<Vec<(&'t K, &'t V)>, AllocError>
    requires { IsFresh (C.cursor cursor.old) }
    ensures { IfOk result (λ pairs. map lent_entry pairs.items ≡ reverse (pairs_within K.cmp (C.cursor cursor.old))) }
{
    pairs_along(alloc, true, cursor)
}

// Moves one end, the backward one or the forward one, until it gives no pair, and returns what it
// gave: all pairs within the bounds, in the order of its way.
fn pairs_along<'t, K: Ord + Drop + 't, V: Drop + 't, C: Cursor<'t, K, V>>(
    alloc: Global,
    backward: bool,
    cursor: &mut C,
) -> Result<Vec<(&'t K, &'t V)>, AllocError>
    requires { IsFresh (C.cursor cursor.old) }
    ensures { IfOk result
        (λ pairs. map lent_entry pairs.items ≡ along (way_of backward) (pairs_within K.cmp (C.cursor cursor.old))) }
{
    let mut pairs = Vec::new(alloc);
    while let Some(pair) = step(backward, cursor) {
        pairs.push(pair)?;
    }
    Ok(pairs)
}

// Moves one end.
fn step<'t, K: Ord + Drop + 't, V: Drop + 't, C: Cursor<'t, K, V>>(
    backward: bool,
    cursor: &mut C,
) -> Option<(&'t K, &'t V)>
    ensures { Moves K.cmp (way_of backward) (C.cursor cursor.old) result (C.cursor cursor.new) }
{
    if backward {
        cursor.next_back()
    } else {
        cursor.next()
    }
}
