//! Arenas, which keep leaves and nodes under numbers.
ghost use Rattle.std.specs.Prelude.{◌≡◌, Some, option_copied};
ghost use Rattle.std.specs.Borrow.{sem};
ghost use Rattle.slab.specs.Slab.{ContainsKey, get, slab_len};
ghost use Rattle.tree_leaf.specs.Arena.{Adds, HasPlaces, IsEmpty, Loses, Reserves};

use crate::leaf::LeafOf;
use slab::Slab;
use std::alloc::{AllocError, Global};

mod ids;

pub use ids::{LeafId, NodeId};

/// An arena of leaves of `LEN` slots and an arena of nodes. A number names what was added under it
/// until that is removed.
#[derive(Drop)]
pub struct SlotsOf<K: Ord, V, N, const LEN: usize> {
    leaves: Slab<LeafOf<K, V, LEN>>,
    nodes: Slab<N>,
    // Always `None`. With it and `no_node` the type shows that a leaf and a node fit into memory,
    // which each call on them requires.
    no_leaf: Option<LeafOf<K, V, LEN>>,
    no_node: Option<N>,
}

/// The arenas of leaves of fifteen slots.
pub type Slots<K, V, N> = SlotsOf<K, V, N, 15>;

impl<K: Ord + Drop, V: Drop, N: Drop, const LEN: usize> SlotsOf<K, V, N, LEN> {
    ghost use Rattle.tree_array.specs.Length.{IsLen};
    ghost use Rattle.tree_leaf.specs.Lending.{lends_leaf, lends_node};

    /// Creates arenas with no number in use. Allocates nothing. The caller must choose 7 or 15 for
    /// `LEN`.
    pub fn new(alloc: Global) -> Self
        requires { IsLen LEN }
        ensures { IsEmpty result }
    {
        SlotsOf {
            leaves: Slab::new(alloc),
            nodes: Slab::new(alloc),
            no_leaf: None,
            no_node: None,
        }
    }

    /// Makes room for so many more leaves and nodes, which can then be added without allocating.
    /// Returns `Err` if it cannot allocate; what is under each number stays either way.
    pub fn reserve(&mut self, leaves: usize, nodes: usize) -> Result<(), AllocError>
        ensures { Reserves self.old self.new leaves nodes result }
    {
        self.leaves.reserve(leaves)?;
        self.nodes.reserve(nodes)
    }

    /// Adds a leaf under a number that was not in use, and returns the number. Returns `Err` with
    /// the leaf if there is no room for it and the allocation fails. Runs in amortized constant
    /// time.
    pub fn add_leaf(&mut self, leaf: LeafOf<K, V, LEN>) -> Result<LeafId, LeafOf<K, V, LEN>>
        ensures leaves { Adds self.old.leaves self.new.leaves leaf result }
        ensures nodes { self.new.nodes ≡ self.old.nodes }
    {
        match self.leaves.insert(leaf) {
            Ok(id) => Ok(LeafId(id)),
            Err(failed) => Err(failed.value),
        }
    }

    /// Adds a node under a number that was not in use, and returns the number. Returns `Err` with
    /// the node if there is no room for it and the allocation fails. Runs in amortized constant
    /// time.
    pub fn add_node(&mut self, node: N) -> Result<NodeId, N>
        ensures nodes { Adds self.old.nodes self.new.nodes node result }
        ensures leaves { self.new.leaves ≡ self.old.leaves }
    {
        match self.nodes.insert(node) {
            Ok(id) => Ok(NodeId(id)),
            Err(failed) => Err(failed.value),
        }
    }

    /// Returns the arena of the leaves alone. Runs in constant time.
    pub fn leaves(&self) -> &Slab<LeafOf<K, V, LEN>>
        ensures { result.now ≡ self.now.leaves }
    {
        &self.leaves
    }

    /// Returns the leaf under a number. Runs in constant time. The caller must name a number in
    /// use.
    pub fn leaf(&self, id: LeafId) -> &LeafOf<K, V, LEN>
        requires { ContainsKey self.now.leaves id }
        ensures { get self.now.leaves id ≡ Some result.now }
    {
        leaf_at(&self.leaves, id)
    }

    /// Returns the leaf under a number, or `None` if the number isn't in use. Runs in constant
    /// time.
    #[inline(always)]
    pub fn find_leaf(&self, id: LeafId) -> Option<&LeafOf<K, V, LEN>>
        ensures { option_copied result ≡ get self.now.leaves id }
    {
        self.leaves.get(id.0)
    }

    /// Returns the leaf under a number for writing. Runs in constant time. The caller must name a
    /// number in use.
    pub fn leaf_mut(&mut self, id: LeafId) -> &mut LeafOf<K, V, LEN>
        requires { ContainsKey self.old.leaves id }
        ensures* lends { sem 𝓛 (lends_leaf K.row V.row N.row LEN.row K.cmp K.eq K.partial_cmp self.entry id result) }
        ensures value { get self.old.leaves id ≡ Some result.now }
    {
        &mut self.leaves[id.0]
    }

    /// Returns the node under a number. Runs in constant time. The caller must name a number in
    /// use.
    pub fn node(&self, id: NodeId) -> &N
        requires { ContainsKey self.now.nodes id }
        ensures { get self.now.nodes id ≡ Some result.now }
    {
        &self.nodes[id.0]
    }

    /// Returns the node under a number for writing. Runs in constant time. The caller must name a
    /// number in use.
    pub fn node_mut(&mut self, id: NodeId) -> &mut N
        requires { ContainsKey self.old.nodes id }
        ensures* lends { sem 𝓛 (lends_node K.row V.row N.row LEN.row K.cmp K.eq K.partial_cmp self.entry id result) }
        ensures value { get self.old.nodes id ≡ Some result.now }
    {
        &mut self.nodes[id.0]
    }

    /// Removes the leaf under a number and returns it; the number is free from then on. Runs in
    /// constant time. The caller must name a number in use.
    pub fn remove_leaf(&mut self, id: LeafId) -> LeafOf<K, V, LEN>
        requires { ContainsKey self.old.leaves id }
        ensures leaves { Loses self.old.leaves self.new.leaves id result }
        ensures nodes { self.new.nodes ≡ self.old.nodes }
    {
        self.leaves.remove(id.0)
    }

    /// Removes the node under a number and returns it; the number is free from then on. Runs in
    /// constant time. The caller must name a number in use.
    pub fn remove_node(&mut self, id: NodeId) -> N
        requires { ContainsKey self.old.nodes id }
        ensures nodes { Loses self.old.nodes self.new.nodes id result }
        ensures leaves { self.new.leaves ≡ self.old.leaves }
    {
        self.nodes.remove(id.0)
    }

    /// Drops every leaf and every node. No number is in use afterwards, and the arenas keep their
    /// memory: as many leaves and nodes as had a place before can be added without allocating.
    /// Allocates nothing.
    pub fn clear(&mut self)
        ensures empty { IsEmpty self.new }
        ensures places { HasPlaces self.new self.old.leaves.capacity self.old.nodes.capacity }
    {
        self.leaves.clear();
        self.nodes.clear();
    }

    /// Returns how many leaves there are. Runs in constant time.
    pub fn leaf_count(&self) -> usize
        ensures { result ≡ slab_len self.now.leaves }
    {
        self.leaves.len()
    }

    /// Returns how many nodes there are. Runs in constant time.
    pub fn node_count(&self) -> usize
        ensures { result ≡ slab_len self.now.nodes }
    {
        self.nodes.len()
    }
}

/// Returns the leaf under a number of an arena of leaves. Runs in constant time. The caller must
/// name a number in use.
pub fn leaf_at<K: Ord + Drop, V: Drop, const LEN: usize>(
    leaves: &Slab<LeafOf<K, V, LEN>>,
    id: LeafId,
) -> &LeafOf<K, V, LEN>
    requires { ContainsKey leaves.now id }
    ensures { get leaves.now id ≡ Some result.now }
{
    &leaves[id.0]
}
