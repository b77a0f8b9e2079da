//! Laws of iterators over linked leaves, each as the contract of a small function: an iterator with
//! its jumps gives all entries of the chain on its way, in order.
ghost use Rattle.std.specs.Prelude.{◌++◌, ◌∷◌, IfOk};
ghost use Rattle.tree_model.specs.declared.way.Way.TheVariants.{On, Back};
ghost use Rattle.tree_leaf.specs.Chain.{IsChain};
ghost use Rattle.tree_leaf.specs.Rest.{AreLeft, AreOnTheWay, Takes};

use crate::arena::{LeafId, SlotsOf};
use crate::iter::{IterOf, LinkedIter, RevIterOf};
use crate::leaf::LeafOf;
use std::alloc::{AllocError, Global};
use tree_model::Direction;

/// Returns the next entry of an iterator, in its leaf or after a jump: the first that is left on
/// its way. Returns `None` if none is left.
#[inline(always)]
pub fn next_or_jump<'t, K: Ord + Drop, V: Drop, D: Direction, const LEN: usize>(
    walk: &mut LinkedIter<'t, LeafOf<K, V, LEN>, D>,
) -> Option<(&'t K, &'t V)>
    ensures { Takes D.way walk.old result walk.new }
{
    match walk.next() {
        None => walk.jump(),
        entry => entry,
    }
}

/// Returns all entries that are left of an iterator, in the order of its way. Returns `Err` if it
/// cannot allocate the list. The caller must pass an iterator in a leaf of a chain.
pub fn entries_left<'t, K: Ord + Drop, V: Drop, D: Direction, const LEN: usize>(
    alloc: Global,
    mut walk: LinkedIter<'t, LeafOf<K, V, LEN>, D>,
) -> Result<Vec<(&'t K, &'t V)>, AllocError>
    requires { (front back : _) × IsChain walk.leaves (front ++ walk.leaf ∷ back) }
    ensures { IfOk result (λ entries. AreLeft D.way walk.entry entries.items) }
{
    let mut entries = Vec::new(alloc);
    while let Some(entry) = next_or_jump(&mut walk) {
        entries.push(entry)?;
    }
    Ok(entries)
}

/// Returns all entries of a leaf and of those after it, in ascending order. Returns `Err` if it
/// cannot allocate the list. The caller must name a leaf of a chain.
pub fn entries_on<'t, K: Ord + Drop, V: Drop, N: Drop, const LEN: usize>(
    alloc: Global,
    arenas: &'t SlotsOf<K, V, N, LEN>,
    id: LeafId,
) -> Result<Vec<(&'t K, &'t V)>, AllocError>
    requires { (front back : _) × IsChain arenas.now.leaves (front ++ id ∷ back) }
    ensures { IfOk result (λ entries. AreOnTheWay On arenas.now.leaves id entries.items) }
{
    entries_left(alloc, IterOf::new(arenas, id))
}

/// Returns all entries of a leaf and of those before it, in descending order. Returns `Err` if it
/// cannot allocate the list. The caller must name a leaf of a chain.
pub fn entries_back<'t, K: Ord + Drop, V: Drop, N: Drop, const LEN: usize>(
    alloc: Global,
    arenas: &'t SlotsOf<K, V, N, LEN>,
    id: LeafId,
) -> Result<Vec<(&'t K, &'t V)>, AllocError>
    requires { (front back : _) × IsChain arenas.now.leaves (front ++ id ∷ back) }
    ensures { IfOk result (λ entries. AreOnTheWay Back arenas.now.leaves id entries.items) }
{
    entries_left(alloc, RevIterOf::new(arenas, id))
}
