//! The tree of an index.
ghost use Rattle.std.specs.Prelude.{◌≡◌, ◌⊎◌, ℕ, [], ◌+◌, ◌*◌, ◌^◌, ◌<◌, ◌≤◌, length, Bool, MatchOption, None, Some, false, true};
ghost use Rattle.std.specs.Fn.{FnOnceReturnsAt, FnOnceTakesAt};
ghost use Rattle.std.specs.Option.{ForSome};
ghost use Rattle.std.specs.declared.cmp.Ordering.TheVariants.{Equal};
ghost use Rattle.tree_array.specs.Length.{IsLen, searched};
ghost use Rattle.tree_model.specs.Pairs.{Finds, IsAbsent, high_of, low_of, pair_at};
ghost use Rattle.tree_node.specs.Ways.{LeadsTo};
ghost use Rattle.tree_insert.specs.Inserts.{IsNew};
ghost use Rattle.tree_leaf.specs.Arena.{HasPlaces};
ghost use Rattle.tree_node.specs.Shape.{room};
ghost use Rattle.tree_node.specs.Tree.{IsRetired};
ghost use Rattle.tree_node.specs.Whole.{depth_of, leaves_under};
ghost use Rattle.tree_remove.specs.Removes.{surely};
ghost use Rattle.tree_root.specs.Trees.{Cuts, IsStored, IsWhole, Stores, Takes, pairs_of, spare_of, told};

use crate::finger::Finger;
use std::alloc::Global;
use std::ops::Bound;
use tree_array::array::{IndexKey, Judge, RemoveResult, StoreResult};
use tree_cut::cutting::remove_range_at;
use tree_insert::insertion::{Crowded, insert_at, insert_crowded, insert_with_room};
use tree_insert::planting::plant;
use tree_insert::root::split_root_at;
use tree_leaf::arena::LeafId;
use tree_model::InsertError;
use tree_node::look_ups::search_at;
use tree_node::node::{ArenasOf, Root};
use tree_remove::entries::{EntryPlace, entry_for, take_entry};
use tree_remove::lowering::lower_root_at;
use tree_remove::removal::{remove_alone, remove_beside};

/// Whether the key of a pair that was stored is new.
#[derive(Drop)]
pub enum Stored {
    /// No pair had an equal key.
    New,
    /// The pair replaced one with an equal key.
    Replaced,
}

/// A tree: its arenas, its root, if there is one, and a finger for removals.
pub struct Tree<K: IndexKey, V: Drop, const LEN: usize> {
    pub arenas: ArenasOf<K, V, LEN>,
    pub root: Option<Root>,
    finger: Finger,
}

// Written out, so that it is proved here and not once more in each crate that drops a tree inside
// another type.
impl<K: IndexKey, V: Drop, const LEN: usize> Drop for Tree<K, V, LEN> {
    fn drop(self) {
        let Tree {
            arenas,
            root: _,
            finger: _,
        } = self;
        drop(arenas);
    }
}

impl<K: IndexKey, V: Drop, const LEN: usize> Tree<K, V, LEN> {
    /// Creates an empty tree. Allocates nothing.
    pub fn new(alloc: Global) -> Self
        requires { IsLen LEN }
        ensures whole { IsWhole K.cmp result }
        ensures root { result.root ≡ None }
    {
        Tree {
            arenas: ArenasOf::new(alloc),
            root: None,
            finger: Finger::new(),
        }
    }

    /// Stores a pair. With `UPSERT` it replaces the pair with an equal key.
    ///
    /// Returns `Err` with the pair if an equal key is there and `UPSERT` is false, or if it cannot
    /// allocate. Makes at most 4 comparisons a level and in the leaf (3 among 7 slots), and one
    /// more in all. If the leaf is full, it searches the leaf and its node once more, or descends
    /// once more.
    #[inline(always)]
    pub fn store<const UPSERT: bool>(&mut self, key: K, val: V) -> Result<Stored, InsertError<K, V>>
        requires len { IsLen LEN }
        requires whole { IsWhole K.cmp self.old }
        ensures { Stores K.cmp UPSERT self.old self.new key val (told result) }
    {
        let Some(root) = self.root else {
            return self.store_first(key, val);
        };
        match insert_with_room::<UPSERT, K, V, LEN>(
            &mut self.arenas,
            root.level,
            root.id,
            key,
            val,
        ) {
            Err(crowded) => self.store_crowded::<UPSERT>(root, crowded),
            Ok(answer) => match answer {
                StoreResult::New => Ok(Stored::New),
                StoreResult::Replaced => Ok(Stored::Replaced),
                StoreResult::Duplicate(key, val) => Err(InsertError::Duplicate(key, val)),
                StoreResult::Full(key, val) => self.store_grown::<UPSERT>(root, key, val),
            },
        }
    }

    // Stores a pair for which its leaf has no room. Its own function, so that the common insert
    // stays short.
    #[inline(never)]
    fn store_crowded<const UPSERT: bool>(
        &mut self,
        root: Root,
        crowded: Crowded<K, V>,
    ) -> Result<Stored, InsertError<K, V>>
        requires len { IsLen LEN }
        requires whole { IsWhole K.cmp self.old }
        requires root { self.old.root ≡ Some root }
        requires way { LeadsTo K.cmp crowded.key root.level self.old.arenas root.id
            crowded.place.node crowded.place.leaf }
        ensures { Stores K.cmp UPSERT self.old self.new crowded.key crowded.val (told result) }
    {
        match insert_crowded::<UPSERT, K, V, LEN>(&mut self.arenas, root.level, root.id, crowded) {
            Err((key, val)) => Err(InsertError::OutOfMemory(key, val)),
            Ok(answer) => match answer {
                StoreResult::New => Ok(Stored::New),
                StoreResult::Replaced => Ok(Stored::Replaced),
                StoreResult::Duplicate(key, val) => Err(InsertError::Duplicate(key, val)),
                StoreResult::Full(key, val) => self.store_grown::<UPSERT>(root, key, val),
            },
        }
    }

    // Stores the first pair.
    fn store_first(&mut self, key: K, val: V) -> Result<Stored, InsertError<K, V>>
        requires len { IsLen LEN }
        requires whole { IsWhole K.cmp self.old }
        requires bare { leaves_under self.old.arenas.nodes self.old.root ≡ [] }
        ensures { (upsert : Bool) → Stores K.cmp upsert self.old self.new key val (told result) }
    {
        match plant(&mut self.arenas, self.root, key, val) {
            Err((key, val)) => Err(InsertError::OutOfMemory(key, val)),
            Ok(id) => {
                self.root = Some(Root { id, level: 1 });
                Ok(Stored::New)
            }
        }
    }

    // Stores a pair for which the root has no room: a retired root gets the pair as its only one,
    // and any other is split under a new root.
    fn store_grown<const UPSERT: bool>(
        &mut self,
        root: Root,
        key: K,
        val: V,
    ) -> Result<Stored, InsertError<K, V>>
        requires len { IsLen LEN }
        requires whole { IsWhole K.cmp self.old }
        requires root { self.old.root ≡ Some root }
        requires full { IsRetired root.level self.old.arenas root.id ⊎ (room root.level self.old.arenas root.id ≡ 0) }
        requires new { IsNew K.cmp UPSERT (pairs_of self.old) key }
        requires spent { spare_of self.old ≡ 0 }
        ensures { Stores K.cmp UPSERT self.old self.new key val (told result) }
    {
        if self.arenas.node(root.id).is_childless() {
            return self.store_first(key, val);
        }
        let Ok(top) = split_root_at(&mut self.arenas, root.level, root.id) else {
            return Err(InsertError::OutOfMemory(key, val));
        };
        let level = root.level + 1;
        self.root = Some(Root { id: top, level });
        match insert_at::<UPSERT, K, V, LEN>(&mut self.arenas, level, top, key, val) {
            Err((key, val)) => Err(InsertError::OutOfMemory(key, val)),
            Ok(answer) => match answer {
                StoreResult::New => Ok(Stored::New),
                StoreResult::Replaced => Ok(Stored::Replaced),
                StoreResult::Duplicate(key, val) => Err(InsertError::Duplicate(key, val)),
                // The new root has room, and so has the child of each key.
                StoreResult::Full(_, _) => unreachable!(),
            },
        }
    }

    /// Removes the pair at a key if the condition returns `true` for its value, and returns whether
    /// it did. Makes at most 4 comparisons a level and in the leaf (3 among 7 slots), and twice as
    /// many if the pair is the only one in its leaf. Allocates nothing.
    ///
    /// If the last two removals went to one leaf, the key is first compared with the first and the
    /// last one there. Between them it needs no descent.
    pub fn remove_if<F: FnOnce(&V) -> bool + Drop>(&mut self, key: &K, condition: F) -> bool
        requires whole { IsWhole K.cmp self.old }
        requires callable { ForSome (pair_at K.cmp (pairs_of self.old) key.now)
            (λ pair. FnOnceTakesAt F.FnOnce condition pair.1) }
        ensures { Takes K.cmp (FnOnceReturnsAt F.FnOnce condition) self.old self.new key.now result }
    {
        let Some(root) = self.root else {
            return false;
        };
        let Some(leaf) = self.finger.leaf_for(&self.arenas, root.level, root.id, key) else {
            return false;
        };
        match remove_beside(&mut self.arenas, root.level, root.id, leaf, key, condition) {
            Ok(removed) => removed,
            Err(condition) => self.remove_alone(root, leaf, key, condition),
        }
    }

    // Does what [`remove_if`](Tree::remove_if) does, with the leaf that the key belongs to, which
    // the removal may retire.
    #[inline(never)]
    fn remove_alone<F: FnOnce(&V) -> bool + Drop>(
        &mut self,
        root: Root,
        leaf: LeafId,
        key: &K,
        condition: F,
    ) -> bool
        requires whole { IsWhole K.cmp self.old }
        requires root { self.old.root ≡ Some root }
        requires way { (node : ℕ) × LeadsTo K.cmp key.now root.level self.old.arenas root.id node leaf }
        requires callable { ForSome (pair_at K.cmp (pairs_of self.old) key.now)
            (λ pair. FnOnceTakesAt F.FnOnce condition pair.1) }
        ensures { Takes K.cmp (FnOnceReturnsAt F.FnOnce condition) self.old self.new key.now result }
    {
        self.finger.goes_on(&self.arenas);
        match remove_alone(&mut self.arenas, root.level, root.id, leaf, key, condition) {
            RemoveResult::Fail => false,
            RemoveResult::Success => {
                self.root = lower_root_at(&mut self.arenas, root.level, root.id);
                true
            }
            RemoveResult::Retired => {
                self.root = lower_root_at(&mut self.arenas, root.level, root.id);
                true
            }
        }
    }

    /// Returns where the pair with a key is stored, or `None` if the key is absent. Makes at most 4
    /// comparisons a level and in the leaf (3 among 7 slots).
    pub fn entry_for(&self, key: &K) -> Option<EntryPlace>
        requires { IsWhole K.cmp self.now }
        ensures { MatchOption result (IsAbsent K.cmp (pairs_of self.now) key.now)
            (λ place. (pair : K × V) × (K.cmp pair.0 key.now ≡ Equal) × IsStored K.cmp self.now place pair) }
    {
        let root = self.root?;
        entry_for(&self.arenas, root.level, root.id, key)
    }

    /// Takes out the pair that is stored at a place, and returns it. Makes no comparisons, but for
    /// a descent by its key if it is the only pair in its leaf. Allocates nothing.
    pub fn take_entry(&mut self, place: EntryPlace) -> (K, V)
        requires whole { IsWhole K.cmp self.old }
        requires stored { (pair : K × V) × IsStored K.cmp self.old place pair }
        ensures pair { (pair : K × V) → IsStored K.cmp self.old place pair → result ≡ pair }
        ensures takes { Takes K.cmp surely self.old self.new result.0 true }
    {
        let Some(root) = self.root else {
            unreachable!()
        };
        let (key, value, _) = take_entry(&mut self.arenas, root.level, root.id, place);
        self.root = lower_root_at(&mut self.arenas, root.level, root.id);
        (key, value)
    }

    /// Removes every pair whose key is within both bounds, and returns how many there were.
    /// Reversed bounds contain no key.
    ///
    /// Drops whole parts of the tree between the bounds. Searches at most two arrays per level for
    /// each bound, and makes at most two comparisons per slot of two leaves. Allocates nothing.
    pub fn remove_range(&mut self, bounds: (Bound<&K>, Bound<&K>)) -> u128
        requires { IsWhole K.cmp self.old }
        ensures { Cuts K.cmp (low_of bounds.entry) (high_of bounds.entry) self.old self.new result }
    {
        let Some(root) = self.root else {
            return 0;
        };
        let removed = remove_range_at(&mut self.arenas, root.level, root.id, bounds);
        self.root = lower_root_at(&mut self.arenas, root.level, root.id);
        removed.pairs
    }

    /// Removes all pairs. The arenas keep their memory: as many leaves and nodes as had a place
    /// before can be added without allocating.
    pub fn clear(&mut self)
        ensures whole { IsWhole K.cmp self.new }
        ensures root { self.new.root ≡ None }
        ensures places { HasPlaces self.new.arenas self.old.arenas.leaves.capacity self.old.arenas.nodes.capacity }
    {
        self.arenas.clear();
        self.root = None;
    }

    /// Returns the pair with the judge's key. Makes at most 4 comparisons per level and in the leaf
    /// with 15 slots, and 3 with 7.
    #[inline(always)]
    pub fn search<J: Judge<K>>(&self, judge: &mut J) -> Option<(&K, &V)>
        requires { IsWhole K.cmp self.now }
        ensures found { Finds K.cmp (pairs_of self.now) (J.key judge.old) result }
        ensures same_key { J.key judge.new ≡ J.key judge.old }
        ensures counted { J.count judge.new ≤ J.count judge.old + LEN * (depth_of self.now.root + 1) }
        ensures halved { J.count judge.new ≤ J.count judge.old + searched LEN * (depth_of self.now.root + 1) }
    {
        let root = self.root?;
        search_at(&self.arenas, root.level, root.id, judge)
    }

    /// Returns how many slots the leaves have, which is at least the number of pairs. Runs in
    /// constant time.
    pub fn slots(&self) -> u128
        requires len { IsLen LEN }
        requires whole { IsWhole K.cmp self.now }
        ensures slots { length (pairs_of self.now) ≤ result }
        ensures small { result < 2 ^ 127 }
    {
        LEN as u128 * self.arenas.leaf_count() as u128
    }
}
