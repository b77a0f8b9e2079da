//! The leaf that an iterator is in, and the leaves that it is linked to.
ghost use Rattle.std.specs.Prelude.{◌≡◌, ◌++◌, ◌∷◌, if◌then◌else◌, is_some, None, Some, List, ℕ};
ghost use Rattle.std.specs.Option.{ForSome};
ghost use Rattle.slab.specs.Slab.{ContainsKey, get};
ghost use Rattle.tree_leaf.specs.Chain.{IsChain};
ghost use Rattle.tree_leaf.specs.Ways.{beside, landing, leaves_on, seen};

use crate::arena::{LeafId, leaf_at};
use crate::leaf::LeafOf;
use slab::Slab;
use tree_model::Way;

/// A type of leaves to iterate over, with what an iterator over them keeps. It has no methods.
pub trait Walked {
    ghost use Rattle.std.specs.Prelude.{ℕ, Option};
    ghost use Rattle.slab.specs.Slab.{Slab as Slots};
    ghost use Rattle.tree_array.specs.Walk.{Walk};
    ghost use Rattle.tree_leaf.specs.declared.stand.Beside.{Beside};
    ghost use Rattle.tree_model.specs.declared.way.Way.{Way};

    ghost stands: { Slots Self → ℕ → Self → Walk → Type 0 };

    ghost ahead: { Way → Slots Self → Self → Option Beside };
}

impl<K: Ord, V, const LEN: usize> Walked for LeafOf<K, V, LEN> {
    ghost use Rattle.tree_leaf.specs.Walks.{IsStand};
    ghost use Rattle.tree_leaf.specs.Ways.{beside, seen};

    ghost stands = { IsStand };

    ghost ahead = { λ way leaves leaf. seen way leaves (beside way leaf) };
}

/// What an iterator has read of the leaf ahead, the next one on its way: the number, how many
/// entries it has, and the number of the leaf beyond it.
#[derive(Clone, Copy)]
pub struct Beside {
    pub id: LeafId,
    pub len: usize,
    pub beyond: Option<LeafId>,
}

/// The leaf that an iterator is in, all leaves, and the leaf ahead on its way, if it has looked
/// there.
///
/// As soon as an iterator comes from one leaf into the next it looks ahead, so that the memory of
/// the leaf ahead is on its way while the entries here are read. It knows that leaf's number by
/// then, so it needn't wait for a link. In the leaf where it begins or turns about it doesn't look,
/// since it often stays there.
#[derive(Drop)]
pub struct Stand<'t, L> {
    pub leaves: &'t Slab<L>,
    pub id: LeafId,
    pub leaf: &'t L,
    pub ahead: Option<Beside>,
}

impl<'t, L> Stand<'t, L> {
    /// Returns a stand in the same leaf, which has read this of the leaf ahead.
    pub fn seeing(&self, ahead: Option<Beside>) -> Self
        ensures { result ≡ record self.now { ahead = ahead } }
    {
        Stand {
            leaves: self.leaves,
            id: self.id,
            leaf: self.leaf,
            ahead,
        }
    }
}

impl<'t, K: Ord + Drop, V: Drop, const LEN: usize> Stand<'t, LeafOf<K, V, LEN>> {
    /// Returns a stand in the leaf under a number, which hasn't looked ahead. The caller must name
    /// a leaf in use.
    pub fn at(leaves: &'t Slab<LeafOf<K, V, LEN>>, id: LeafId) -> Self
        requires { ContainsKey leaves.now id }
        ensures leaves { result.leaves.now ≡ leaves.now }
        ensures id { result.id ≡ id }
        ensures leaf { get leaves.now id ≡ Some result.leaf.now }
        ensures ahead { result.ahead ≡ None }
    {
        let leaf = leaf_at(leaves, id);
        Stand {
            leaves,
            id,
            leaf,
            ahead: None,
        }
    }

    /// Returns what is seen of the leaf where a jump lands: the next leaf on the way that has an
    /// entry, or else the last leaf on the way. Returns `None` if no leaf follows. Runs in O(n) for
    /// n leaves passed.
    #[inline(always)]
    pub fn landing(&self, way: Way) -> Option<Beside>
        requires leaf { get self.now.leaves.now self.now.id ≡ Some self.now.leaf.now }
        requires chain { (front back : _) × IsChain self.now.leaves.now (front ++ self.now.id ∷ back) }
        requires ahead { self.now.ahead
            ≡ (if is_some self.now.ahead then seen way self.now.leaves.now (beside way self.now.leaf.now) else None) }
        ensures { (front back : List ℕ) → IsChain self.now.leaves.now (front ++ self.now.id ∷ back)
            → result ≡ seen way self.now.leaves.now (landing self.now.leaves.now None (leaves_on way front back)) }
    {
        if let Some(next) = self.ahead {
            if next.len > 0 {
                return Some(next);
            }
        }
        landing_from(self.leaves, self.id, way)
    }
}

// Does what [`landing`](Stand::landing) does, from the leaf under a number and without what an
// iterator has seen. Stays out of the way of most jumps. The caller must name a leaf of a chain.
#[inline(never)]
fn landing_from<K: Ord + Drop, V: Drop, const LEN: usize>(
    leaves: &Slab<LeafOf<K, V, LEN>>,
    id: LeafId,
    way: Way,
) -> Option<Beside>
    requires { (front back : _) × IsChain leaves.now (front ++ id ∷ back) }
    ensures { (front back : List ℕ) → IsChain leaves.now (front ++ id ∷ back)
        → result ≡ seen way leaves.now (landing leaves.now None (leaves_on way front back)) }
{
    let mut passed = None;
    let mut ahead = look_up(leaves, link(leaf_at(leaves, id), way), way);
    while let Some(next) = ahead {
        let beyond = next.beyond;
        if next.len > 0 {
            return Some(next);
        }
        passed = Some(next);
        ahead = look_up(leaves, beyond, way);
    }
    passed
}

/// Looks up the leaf under a number, if there is a number. The caller must name one in use.
pub fn look_up<K: Ord + Drop, V: Drop, const LEN: usize>(
    leaves: &Slab<LeafOf<K, V, LEN>>,
    id: Option<LeafId>,
    way: Way,
) -> Option<Beside>
    requires { ForSome id (ContainsKey leaves.now) }
    ensures { result ≡ seen way leaves.now id }
{
    let id = id?;
    let leaf = leaf_at(leaves, id);
    Some(Beside {
        id,
        len: leaf.array().len(),
        beyond: link(leaf, way),
    })
}

// Returns the leaf that a leaf links to on the way.
fn link<K: Ord + Drop, V: Drop, const LEN: usize>(
    leaf: &LeafOf<K, V, LEN>,
    way: Way,
) -> Option<LeafId>
    ensures { result ≡ beside way leaf.now }
{
    match way {
        Way::On => leaf.next(),
        Way::Back => leaf.prev(),
    }
}
