//! Changes of the links between leaves. No call compares keys.
ghost use Rattle.std.specs.Prelude.{◌≡◌, ◌++◌, ◌∷◌};
ghost use Rattle.std.specs.Option.{ForSome};
ghost use Rattle.slab.specs.Slab.{ContainsKey};
ghost use Rattle.tree_leaf.specs.Chain.{IsChain};
ghost use Rattle.tree_leaf.specs.Links.{AddsBefore, ChangesAt, SameRoom, Splices, Unlinks};

use crate::arena::{LeafId, SlotsOf};
use crate::leaf::LeafOf;

/// Removes a leaf from its chain: its two neighbours become neighbours of each other. The leaf
/// stays in its arena. Runs in constant time. The caller must name a leaf of a chain.
pub fn unlink<K: Ord + Drop, V: Drop, N: Drop, const LEN: usize>(
    arenas: &mut SlotsOf<K, V, N, LEN>,
    id: LeafId,
)
    requires { (front back : _) × IsChain arenas.old.leaves (front ++ id ∷ back) }
    ensures { Unlinks arenas.old arenas.new id }
{
    let leaf = arenas.leaf(id);
    let left = leaf.prev;
    let right = leaf.next;
    splice_link(arenas, left, right);
}

/// Makes two leaves neighbours of each other. What was between them in a chain is out of it, and
/// `None` means an end of the chain. Runs in constant time. The caller must name numbers in use.
pub fn splice_link<K: Ord + Drop, V: Drop, N: Drop, const LEN: usize>(
    arenas: &mut SlotsOf<K, V, N, LEN>,
    left: Option<LeafId>,
    right: Option<LeafId>,
)
    requires left { ForSome left (ContainsKey arenas.old.leaves) }
    requires right { ForSome right (ContainsKey arenas.old.leaves) }
    ensures { Splices arenas.old arenas.new left right }
{
    // Copies, since the borrow checker has an argument of this type passed on once.
    let (before, after) = (left, right);
    set_next(arenas, left, right);
    set_prev(arenas, after, before);
}

/// Adds a leaf to the arena and links it right before the one at `at`. Returns `Err` with the leaf,
/// and changes no leaf and no link, if there is no room for it and the allocation fails. Runs in
/// amortized constant time. The caller must name a leaf of a chain by `at`.
pub fn add_before<K: Ord + Drop, V: Drop, N: Drop, const LEN: usize>(
    arenas: &mut SlotsOf<K, V, N, LEN>,
    at: LeafId,
    leaf: LeafOf<K, V, LEN>,
) -> Result<LeafId, LeafOf<K, V, LEN>>
    requires { (front back : _) × IsChain arenas.old.leaves (front ++ at ∷ back) }
    ensures { AddsBefore arenas.old arenas.new at leaf result }
{
    let prev = arenas.leaf(at).prev;
    let id = arenas.add_leaf(leaf)?;
    splice_link(arenas, prev, Some(id));
    splice_link(arenas, Some(id), Some(at));
    Ok(id)
}

// Sets which leaf comes after the one at `at`, if that is one.
fn set_next<K: Ord + Drop, V: Drop, N: Drop, const LEN: usize>(
    arenas: &mut SlotsOf<K, V, N, LEN>,
    at: Option<LeafId>,
    next: Option<LeafId>,
)
    requires { ForSome at (ContainsKey arenas.old.leaves) }
    ensures nodes { arenas.new.nodes ≡ arenas.old.nodes }
    ensures room { SameRoom arenas.old.leaves arenas.new.leaves }
    ensures changes { ChangesAt arenas.old.leaves arenas.new.leaves at (λ leaf. record leaf { next = next }) }
{
    if let Some(id) = at {
        arenas.leaf_mut(id).next = next;
    }
}

// Sets which leaf comes before the one at `at`, if that is one.
fn set_prev<K: Ord + Drop, V: Drop, N: Drop, const LEN: usize>(
    arenas: &mut SlotsOf<K, V, N, LEN>,
    at: Option<LeafId>,
    prev: Option<LeafId>,
)
    requires { ForSome at (ContainsKey arenas.old.leaves) }
    ensures nodes { arenas.new.nodes ≡ arenas.old.nodes }
    ensures room { SameRoom arenas.old.leaves arenas.new.leaves }
    ensures changes { ChangesAt arenas.old.leaves arenas.new.leaves at (λ leaf. record leaf { prev = prev }) }
{
    if let Some(id) = at {
        arenas.leaf_mut(id).prev = prev;
    }
}
