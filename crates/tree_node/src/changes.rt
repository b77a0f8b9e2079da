//! Changes of a node: its children are divided, arrive again, or lose one.
ghost use Rattle.std.specs.Prelude.{◌≡◌, ◌+◌, ◌<◌, ℕ, Some, IsSome, take, drop, length, slice_get};
ghost use Rattle.tree_array.specs.Arrivals.{arrival, in_order, removed};
ghost use Rattle.tree_array.specs.Length.{IsLen};
ghost use Rattle.tree_node.specs.Changes.{CutsNode, MovesLast, RebuildsNode};
ghost use Rattle.tree_node.specs.Tree.{HasKind, keyed, unbounded};

use crate::branch::BranchOf;
use crate::node::NodeOf;
use tree_array::array::{ArrayOf, RemoveResult};

impl<K: Ord + Drop, I: Copy + Drop, const LEN: usize> BranchOf<K, I, LEN> {
    /// Moves the children up to the one at this place to a new node, which has that one as its
    /// unbounded child. Returns its separator and the new node. The keyed children of both nodes
    /// arrive again, in ascending order. The caller must name the place of a keyed child.
    pub fn cut(&mut self, place: u8) -> (K, Self)
        requires len { IsLen LEN }
        requires within { place < length self.old.children.entries }
        ensures middle { (middle : I) × (slice_get self.old.children.entries place ≡ Some (result.0, middle))
            × (result.1.unbounded_child ≡ Some middle) }
        ensures low { result.1.children ≡ in_order (take place self.old.children.entries) }
        ensures high { self.new.children ≡ in_order (drop (place + 1) self.old.children.entries) }
        ensures last { self.new.unbounded_child ≡ self.old.unbounded_child }
    {
        let mut low = ArrayOf::new();
        let mut high = ArrayOf::new();
        let Some((separator, middle)) = self.children.distribute_apart(place, &mut low, &mut high)
        else {
            unreachable!()
        };
        self.children = high;
        (
            separator,
            BranchOf {
                unbounded_child: Some(middle),
                children: low,
            },
        )
    }

    /// Takes the unbounded child out. The keyed child with the greatest separator takes its place,
    /// and its separator is dropped. Returns `Retired` if there is none, so that the node has no
    /// child left, else `Success`.
    pub fn take_unbounded(&mut self) -> RemoveResult
        ensures { MovesLast K.cmp self.old.children self.new.children self.new.unbounded_child result }
    {
        match self.children.last_slot() {
            Some(slot) => {
                let (_, child, _) = self.children.take(slot);
                self.unbounded_child = Some(child);
                RemoveResult::Success
            }
            None => {
                self.unbounded_child = None;
                RemoveResult::Retired
            }
        }
    }
}

impl<K: Ord + Drop, const LEN: usize> NodeOf<K, LEN> {
    /// Rebuilds the array of the keyed children, in ascending order.
    pub fn rebuild(&mut self)
        ensures { RebuildsNode self.old self.new }
    {
        match self {
            NodeOf::Internal(node) => node.children.rebuild(),
            NodeOf::Leaf(node) => node.children.rebuild(),
        }
    }

    /// Moves the children up to the one at this place to a new node of the same kind, as
    /// [`BranchOf::cut`] does.
    pub fn cut(&mut self, place: u8) -> (K, Self)
        requires len { IsLen LEN }
        requires within { place < length (keyed self.old).entries }
        ensures { CutsNode self.old place self.new result.1 result.0 }
    {
        match self {
            NodeOf::Internal(node) => {
                let (separator, low) = node.cut(place);
                (separator, NodeOf::Internal(low))
            }
            NodeOf::Leaf(node) => {
                let (separator, low) = node.cut(place);
                (separator, NodeOf::Leaf(low))
            }
        }
    }

    /// Takes the keyed child of a slot out. Other children keep their slots. The caller must name
    /// the slot of a keyed child.
    #[tactic(auto, using(crate::proofs::Standing::inner_kind, crate::proofs::Standing::outer_kind))]
    pub fn take_keyed(&mut self, slot: u8)
        requires { IsSome (arrival (keyed self.old).arrivals slot) }
        ensures taken { (pair : _) × (arrival (keyed self.old).arrivals slot ≡ Some pair)
            × (keyed self.new ≡ removed K.cmp (keyed self.old) pair.0) }
        ensures last { unbounded self.new ≡ unbounded self.old }
        ensures kind { (level : ℕ) → HasKind level self.old → HasKind level self.new }
    {
        match self {
            NodeOf::Internal(node) => {
                let _ = node.children.take(slot);
            }
            NodeOf::Leaf(node) => {
                let _ = node.children.take(slot);
            }
        }
    }

    /// Takes the unbounded child out, as [`BranchOf::take_unbounded`] does.
    pub fn take_unbounded(&mut self) -> RemoveResult
        ensures moves { MovesLast K.cmp (keyed self.old) (keyed self.new) (unbounded self.new) result }
        ensures kind { (level : ℕ) → HasKind level self.old → HasKind level self.new }
    {
        match self {
            NodeOf::Internal(node) => node.take_unbounded(),
            NodeOf::Leaf(node) => node.take_unbounded(),
        }
    }
}
