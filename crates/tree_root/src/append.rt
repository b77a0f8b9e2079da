//! Appends to a tree: pairs whose keys are larger than all.
ghost use Rattle.std.specs.Prelude.{◌≡◌, ◌++◌, ◌∷◌, [], IfOk, None, length, true};
ghost use Rattle.std.specs.List.{AllByRecursion};
ghost use Rattle.std.specs.Option.{ForSome};
ghost use Rattle.std.specs.declared.cmp.Ordering.TheVariants.{Less};
ghost use Rattle.tree_array.specs.Length.{IsLen};
ghost use Rattle.tree_model.specs.Pairs.{IsAscending};
ghost use Rattle.tree_root.specs.Lasts.{IsLast, appended};
ghost use Rattle.tree_root.specs.Rooms.{HasRoomForPairs};
ghost use Rattle.tree_root.specs.Runs.{Gathers};
ghost use Rattle.tree_root.specs.Trees.{IsWhole, Stores, packed_of, pairs_of};

use crate::tree::{Stored, Tree};
use std::alloc::{AllocError, Global};
use tree_array::array::{IndexKey, RunOf};
use tree_insert::{append_run, append_to, last_leaf_at};
use tree_leaf::arena::LeafId;
use tree_model::InsertError;

impl<K: IndexKey, V: Drop, const LEN: usize> Tree<K, V, LEN> {
    /// Creates an empty tree with room for so many pairs that are appended: their leaves and nodes
    /// are reserved. Returns `Err` if it cannot allocate. Allocates nothing for no pair.
    pub fn with_room(alloc: Global, pairs: usize) -> Result<Self, AllocError>
        requires { IsLen LEN }
        ensures whole { IfOk result (IsWhole K.cmp) }
        ensures root { IfOk result (λ tree. tree.root ≡ None) }
        ensures room { IfOk result (λ tree. HasRoomForPairs tree.arenas pairs) }
    {
        let mut tree = Tree::new(alloc);
        let leaves = pairs.div_ceil(LEN);
        tree.arenas.reserve(leaves, leaves.div_ceil(LEN - 1))?;
        Ok(tree)
    }

    /// Returns a tree of these pairs. The caller must pass pairs whose keys ascend. Returns `Err`
    /// if it cannot allocate; nothing of the tree is left then. Makes a few comparisons per leaf,
    /// and those of a descent per leaf node.
    pub fn from_sorted(alloc: Global, pairs: Vec<(K, V)>) -> Result<Self, AllocError>
        requires len { IsLen LEN }
        requires ascending { IsAscending K.cmp pairs.items }
        ensures whole { IfOk result (IsWhole K.cmp) }
        ensures pairs { IfOk result (λ tree. pairs_of tree ≡ pairs.items) }
        ensures packed { IfOk result (λ tree. packed_of K.cmp tree ≡ true) }
    {
        let mut tree = Tree::with_room(alloc, pairs.len())?;
        tree.append_sorted(pairs)?;
        Ok(tree)
    }

    // Appends pairs whose keys ascend and are larger than all. Returns `Err` if it cannot allocate.
    // The caller must reserve the leaves and nodes that the pairs fill.
    fn append_sorted(&mut self, pairs: Vec<(K, V)>) -> Result<(), AllocError>
        requires len { IsLen LEN }
        requires whole { IsWhole K.cmp self.old }
        requires ascending { IsAscending K.cmp (pairs_of self.old ++ pairs.items) }
        requires room { HasRoomForPairs self.old.arenas (length pairs.items) }
        ensures { IfOk result (λ _. Gathers K.cmp self.old self.new [] [] pairs.items) }
    {
        let mut run = RunOf::new();
        for (key, value) in pairs {
            self.gather(&mut run, key, value)?;
        }
        self.append_run(&mut run)
    }

    /// Appends a pair to a run, and first appends the run to the tree if it is full. Returns `Err`
    /// if it cannot allocate.
    ///
    /// The caller must pass a pair whose key is larger than those of the run, which are larger than
    /// those of the tree.
    #[inline(always)]
    pub fn gather(&mut self, run: &mut RunOf<K, V, LEN>, key: K, val: V) -> Result<(), AllocError>
        requires len { IsLen LEN }
        requires whole { IsWhole K.cmp self.old }
        requires ascending { IsAscending K.cmp ((pairs_of self.old ++ run.old) ++ (key, val) ∷ []) }
        ensures { IfOk result (λ _. Gathers K.cmp self.old self.new run.old run.new ((key, val) ∷ [])) }
    {
        if run.is_full() {
            self.append_run(run)?;
        }
        run.push(key, val);
        Ok(())
    }

    /// Appends the pairs of a run, which has none afterwards. Returns `Err` if it cannot allocate.
    ///
    /// The run becomes the last leaf as a whole, under its node, which is found along the unbounded
    /// children. If that node is full, or the tree has no leaf yet, its pairs are appended one by
    /// one.
    ///
    /// The caller must pass a run whose keys are larger than those of the tree.
    #[inline(never)]
    pub fn append_run(&mut self, run: &mut RunOf<K, V, LEN>) -> Result<(), AllocError>
        requires len { IsLen LEN }
        requires whole { IsWhole K.cmp self.old }
        requires ascending { IsAscending K.cmp (pairs_of self.old ++ run.old) }
        ensures gathers { IfOk result (λ _. Gathers K.cmp self.old self.new run.old [] []) }
        ensures left { IfOk result (λ _. run.new ≡ []) }
    {
        let Some(root) = self.root else {
            return self.append_each(run);
        };
        if append_run(&mut self.arenas, root.level, root.id, run)? {
            return Ok(());
        }
        self.append_each(run)
    }

    // Appends the pairs of a run one by one: the first by a descent, and those that find a free
    // slot in the last leaf there.
    #[inline(never)]
    fn append_each(&mut self, run: &mut RunOf<K, V, LEN>) -> Result<(), AllocError>
        requires len { IsLen LEN }
        requires whole { IsWhole K.cmp self.old }
        requires ascending { IsAscending K.cmp (pairs_of self.old ++ run.old) }
        ensures gathers { IfOk result (λ _. Gathers K.cmp self.old self.new run.old [] []) }
        ensures left { IfOk result (λ _. run.new ≡ []) }
    {
        let mut array = run.close();
        let mut last = None;
        while let Some(slot) = array.slot_at(0) {
            let (key, val, _) = array.take(slot);
            match self.append(&mut last, key, val) {
                Ok(()) => {}
                Err(_) => return Err(AllocError),
            }
        }
        Ok(())
    }

    // Stores a pair whose key is larger than all, and keeps the last leaf in `last`, to be passed
    // with the next pair.
    //
    // Returns `Err` with the pair if it cannot allocate. If `last` has a free slot, the pair is put
    // there, without a comparison or an allocation. Otherwise costs what [`store`](Tree::store)
    // does.
    //
    // The caller must pass no leaf but the last one.
    #[inline(always)]
    fn append(&mut self, last: &mut Option<LeafId>, key: K, val: V) -> Result<(), (K, V)>
        requires len { IsLen LEN }
        requires whole { IsWhole K.cmp self.old }
        requires last { ForSome last.old (IsLast self.old) }
        requires beyond { AllByRecursion (λ p. K.cmp p.0 key ≡ Less) (pairs_of self.old) }
        ensures stores { Stores K.cmp true self.old self.new key val (appended result) }
        ensures last { IfOk result (λ _. ForSome last.new (IsLast self.new)) }
    {
        let Some(leaf) = *last else {
            return self.append_below(last, key, val);
        };
        match append_to(&mut self.arenas, leaf, key, val) {
            Ok(()) => Ok(()),
            Err((key, val)) => self.append_below(last, key, val),
        }
    }

    // Appends a pair by a descent. Its own function, so that the common append stays short.
    #[inline(never)]
    fn append_below(&mut self, last: &mut Option<LeafId>, key: K, val: V) -> Result<(), (K, V)>
        requires len { IsLen LEN }
        requires whole { IsWhole K.cmp self.old }
        requires beyond { AllByRecursion (λ p. K.cmp p.0 key ≡ Less) (pairs_of self.old) }
        ensures stores { Stores K.cmp true self.old self.new key val (appended result) }
        ensures last { IfOk result (λ _. ForSome last.new (IsLast self.new)) }
    {
        match self.store::<true>(key, val) {
            Ok(Stored::New) => {
                *last = self.last_leaf();
                Ok(())
            }
            Ok(Stored::Replaced) => unreachable!(),
            Err(InsertError::Duplicate(_, _)) => unreachable!(),
            Err(InsertError::OutOfMemory(key, val)) => Err((key, val)),
        }
    }

    // Returns the last leaf, or `None` if there is none or it has no pair. Runs in O(depth), and
    // makes no comparisons.
    fn last_leaf(&self) -> Option<LeafId>
        requires { IsWhole K.cmp self.now }
        ensures { ForSome result (IsLast self.now) }
    {
        let root = self.root?;
        last_leaf_at(&self.arenas, root.level, root.id)
    }
}
