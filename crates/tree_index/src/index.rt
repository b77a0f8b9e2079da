//! The index.
ghost use Rattle.std.specs.Prelude.{◌≡◌, ◌↔◌, IsTrue, ◌+◌, ◌*◌, ◌^◌, ◌-◌, ◌≤◌, Bool, false, true, min, [], length, IfOk, Some};
ghost use Rattle.std.specs.Fn.{FnOnceReturnsAt, FnOnceTakesAt};
ghost use Rattle.std.specs.Option.{ForSome, option_copied, option_map};
ghost use Rattle.tree_array.specs.Length.{IsLen, searched};
ghost use Rattle.tree_index.specs.Index.{IsShallow, IsTreeOf, StaysPacked, KeepsSpare, SpendsInsert, SpendsUpsert, StoresPair};
ghost use Rattle.tree_model.specs.Pairs.{Finds, IsAscending, IsPresent, cut, high_of, low_of, pair_at, without};
ghost use Rattle.tree_model.specs.Edits.{Inserts, RemovesIf, Upserts};

use crate::seek::{Seeks, pair_of};
use std::alloc::Global;
use std::fmt;
use std::marker::Model;
use std::ops::Bound;
use tree_array::array::{IndexKey, Judge};
use tree_leaf::arena::NodeId;
use tree_model::InsertError;
use tree_node::node::ArenasOf;
use tree_parts::spare::spare_at;
use tree_root::{Stored, Tree};
use tree_views::listing::list_pairs;

/// An ordered index of pairs of a key and a value, with fifteen pairs a leaf. See [`TreeIndexOf`].
pub type TreeIndex<K, V> = TreeIndexOf<K, V, 15>;

/// An ordered index with seven pairs a leaf. See [`TreeIndexOf`].
pub type SmallTreeIndex<K, V> = TreeIndexOf<K, V, 7>;

/// An ordered index of pairs of a key and a value: a B-plus tree with up to `LEN` pairs a leaf and
/// `LEN + 1` children a node. `LEN` is 7 or 15.
///
/// Contracts see the list of its pairs, strictly ascending by key; its depth, which is the number
/// of levels of nodes; its spare, which is how many writes are sure not to allocate; and whether it
/// is packed, which is as full as possible along the right edge of its tree. Pairs that arrive in
/// ascending order leave it so.
///
/// Costs are in terms of the depth. An array is searched with at most 4 comparisons among 15 slots,
/// and 3 among 7.
pub struct TreeIndexOf<K: IndexKey, V: Drop, const LEN: usize> {
    pub(crate) tree: Tree<K, V, LEN>,
    pub(crate) len: u128,
    // What the tree allocates with, for clones. It takes no bytes.
    pub(crate) alloc: Global,
}

// Written out for the reason that the drop of `Tree` in `tree_root` is.
impl<K: IndexKey, V: Drop, const LEN: usize> Drop for TreeIndexOf<K, V, LEN> {
    fn drop(self) {
        let TreeIndexOf {
            tree,
            len: _,
            alloc: _,
        } = self;
        drop(tree);
    }
}

impl<K: IndexKey, V: Drop, const LEN: usize> Model for TreeIndexOf<K, V, LEN> {
    ghost use Rattle.std.specs.Prelude.{◌≡◌, length};
    ghost use Rattle.tree_array.specs.Length.{IsLen};
    ghost use Rattle.tree_index.specs.Index.{Index, index_of};
    ghost use Rattle.tree_root.specs.Trees.{IsWhole, pairs_of};

    ghost Value = { Index K V };

    ghost view = { λ a. index_of K.cmp a.tree };

    ghost invariant = { λ a. IsLen LEN × IsWhole K.cmp a.tree × (a.len ≡ length (pairs_of a.tree)) };
}

impl<K: IndexKey, V: Drop, const LEN: usize> TreeIndexOf<K, V, LEN> {
    /// Creates an empty index. Allocates nothing. The caller must choose 7 or 15 for `LEN`.
    ///
    /// ```
    /// let mut book = TreeIndex::new(alloc);
    /// for (price, quantity) in orders {
    ///     book.upsert_sync(*price, *quantity).map_err(|_| AllocError)?;
    /// }
    /// ```
    pub fn new(alloc: Global) -> Self
        requires { IsLen LEN }
        ensures pairs { result.pairs ≡ [] }
        ensures depth { result.depth ≡ 0 }
        ensures spare { result.spare ≡ 0 }
        ensures packed { result.packed ≡ true }
    {
        TreeIndexOf {
            tree: Tree::new(alloc),
            len: 0,
            alloc,
        }
    }

    /// Stores a pair if its key is absent.
    ///
    /// Returns `Duplicate` if the key is present, and `OutOfMemory` if the key is absent and an
    /// allocation fails. Both return the pair and leave the index's pairs unchanged. Doesn't fail
    /// to allocate while the spare is above 0.
    ///
    /// Descends once and searches one array per level and the leaf. If the leaf has a free slot,
    /// allocates nothing. If the leaf is full, searches the leaf and the node above it once more.
    /// If that node is full too, descends once more; if that splits an array, searches again from
    /// its level on. Allocates at most one leaf, one node per level and a new root.
    ///
    /// ```
    /// match prices.insert_sync(item, price) {
    ///     Ok(()) => Some(price),
    ///     Err(InsertError::Duplicate(item, _)) => prices.peek(&item).copied(),
    ///     Err(InsertError::OutOfMemory(_, _)) => None,
    /// }
    /// ```
    pub fn insert_sync(&mut self, key: K, value: V) -> Result<(), InsertError<K, V>>
        ensures pairs { Inserts K.cmp self.old.pairs key value result self.new.pairs }
        ensures spare { SpendsInsert LEN self.old self.new result }
        ensures packed { IfOk result (λ _. StaysPacked K.cmp self.old self.new key) }
    {
        self.store::<false>(key, value)?;
        Ok(())
    }

    /// Stores a pair. A pair with an equal key is replaced, key and value.
    ///
    /// Returns `Err` with the pair if an allocation fails; the index's pairs are then unchanged.
    /// Doesn't fail to allocate while the spare is above 0. Costs what
    /// [`insert_sync`](TreeIndexOf::insert_sync) does. A replaced pair leaves its slot spent until
    /// its leaf is rebuilt or split.
    ///
    /// ```
    /// let old = balances.peek(&account).copied().unwrap_or(0);
    /// let balance = old.checked_add(amount).ok_or(Refusal::TooMuch)?;
    /// balances.upsert_sync(account, balance)?;
    /// ```
    pub fn upsert_sync(&mut self, key: K, value: V) -> Result<(), (K, V)>
        ensures pairs { Upserts K.cmp self.old.pairs key value result self.new.pairs }
        ensures spare { SpendsUpsert LEN self.old self.new result }
        ensures packed { IfOk result (λ _. StaysPacked K.cmp self.old self.new key) }
    {
        match self.store::<true>(key, value) {
            Ok(_) => Ok(()),
            Err(refused) => Err(refused.into_pair()),
        }
    }

    /// Removes the pair with a key. Returns whether there was one.
    ///
    /// Descends once and searches one array per level and the leaf, and twice if the leaf has only
    /// that pair. If the last two removals went to one leaf, first compares the key with the first
    /// and the last one there: between them it needs no descent. Allocates nothing.
    ///
    /// ```
    /// pub fn withdraw(stock: &mut TreeIndex<u64, u64>, article: u64) -> bool
    ///     ensures { stock.new.pairs ≡ without nat_cmp stock.old.pairs article }
    /// {
    ///     stock.remove_sync(&article)
    /// }
    /// ```
    pub fn remove_sync(&mut self, key: &K) -> bool
        ensures answer { IsTrue result ↔ IsPresent K.cmp self.old.pairs key.now }
        ensures left { self.new.pairs ≡ without K.cmp self.old.pairs key.now }
        ensures spare { KeepsSpare self.old self.new }
        ensures kept { result ≡ false → self.new ≡ self.old }
    {
        self.remove_if_sync(key, always)
    }

    /// Removes the pair with a key if the condition returns `true` for its value. Returns whether
    /// it did.
    ///
    /// Calls the condition once if the key is present, else never. The condition must accept the
    /// value of the key. Costs what [`remove_sync`](TreeIndexOf::remove_sync) does.
    ///
    /// ```
    /// balances.remove_if_sync(&account, |balance| *balance == 0)
    /// ```
    pub fn remove_if_sync<F: FnOnce(&V) -> bool + Drop>(&mut self, key: &K, condition: F) -> bool
        requires { ForSome (pair_at K.cmp self.old.pairs key.now) (λ pair. FnOnceTakesAt F.FnOnce condition pair.1) }
        ensures pairs { RemovesIf K.cmp
            (FnOnceReturnsAt F.FnOnce condition) self.old.pairs key.now result self.new.pairs }
        ensures always { ((value : V) (said : Bool) → FnOnceReturnsAt F.FnOnce condition value said → said ≡ true)
            → (IsTrue result ↔ IsPresent K.cmp self.old.pairs key.now)
            × (self.new.pairs ≡ without K.cmp self.old.pairs key.now) }
        ensures spare { KeepsSpare self.old self.new }
        ensures kept { result ≡ false → self.new ≡ self.old }
    {
        let removed = self.tree.remove_if(key, condition);
        if removed {
            self.len -= 1;
        }
        removed
    }

    /// Removes every pair whose key is within both bounds. Bounds that contain no key, reversed
    /// ones among them, remove nothing.
    ///
    /// Drops whole parts of the tree between the bounds, each leaf and node once. Makes comparisons
    /// only at the two ends of the range: at most two searches per level and bound, and two
    /// comparisons per slot of two leaves, however many pairs it removes. Allocates nothing. What
    /// [`spare`](TreeIndexOf::spare) returns afterwards is not promised.
    ///
    /// ```
    /// samples.remove_range_sync((Bound::Unbounded, Bound::Excluded(&time)));
    /// ```
    pub fn remove_range_sync(&mut self, bounds: (Bound<&K>, Bound<&K>))
        ensures { self.new.pairs ≡ cut K.cmp self.old.pairs (low_of bounds.entry) (high_of bounds.entry) }
    {
        self.len -= self.tree.remove_range(bounds);
    }

    /// Removes all pairs. The depth is 0 afterwards.
    ///
    /// Drops each pair, leaf and node once. Allocates nothing, and keeps the memory of leaves and
    /// nodes for later writes.
    ///
    /// ```
    /// let was_empty = stock.is_empty();
    /// stock.clear();
    /// !was_empty
    /// ```
    pub fn clear(&mut self)
        ensures pairs { self.new.pairs ≡ [] }
        ensures depth { self.new.depth ≡ 0 }
        ensures spare { self.new.spare ≡ 0 }
        ensures packed { self.new.packed ≡ true }
    {
        self.tree.clear();
        self.len = 0;
    }

    /// Returns the value of a key, or `None` if the key is absent.
    ///
    /// Makes at most `4 * (depth + 1)` comparisons with 15 pairs a leaf, and `3 * (depth + 1)` with
    /// 7. Allocates nothing.
    ///
    /// ```
    /// assert!(rt; index.peek(&1).copied() == Some(10));
    /// ```
    #[inline(always)]
    pub fn peek(&self, key: &K) -> Option<&V>
        ensures found { option_copied result ≡ option_map (λ pair. pair.1) (pair_at K.cmp self.now.pairs key.now) }
        ensures ascending { IsAscending K.cmp self.now.pairs }
    {
        match self.peek_entry(key) {
            Some((_, value)) => Some(value),
            None => None,
        }
    }

    /// Returns the pair with a key, as it is stored. Costs what [`peek`](TreeIndexOf::peek) does.
    ///
    /// ```
    /// fn entry(&self, tag: char) -> Option<(char, u64)> {
    ///     self.peek_entry(&five(tag))
    ///         .map(|(key, value)| (key.tag, *value))
    /// }
    /// ```
    #[inline(always)]
    pub fn peek_entry(&self, key: &K) -> Option<(&K, &V)>
        ensures found { Finds K.cmp self.now.pairs key.now result }
        ensures ascending { IsAscending K.cmp self.now.pairs }
    {
        pair_of(self, key)
    }

    /// Returns the pair with the judge's key, as it is stored. The judge keeps its key, and makes
    /// at most `4 * (depth + 1)` comparisons with 15 pairs a leaf, and `3 * (depth + 1)` with 7.
    ///
    /// ```
    /// let mut judge: KeyJudge<K, L> = KeyJudge::new(key, Steps::new(blank));
    ///
    /// self.peek_entry_by(judge).is_some()
    /// ```
    #[inline(always)]
    pub fn peek_entry_by<J: Judge<K>>(&self, judge: &mut J) -> Option<(&K, &V)>
        ensures found { Finds K.cmp self.now.pairs (J.key judge.old) result }
        ensures same_key { J.key judge.new ≡ J.key judge.old }
        ensures counted { J.count judge.new ≤ J.count judge.old + LEN * (self.now.depth + 1) }
        ensures halved { J.count judge.new ≤ J.count judge.old + searched LEN * (self.now.depth + 1) }
        ensures ascending { IsAscending K.cmp self.now.pairs }
    {
        self.tree.search(judge)
    }

    /// Returns whether a key is present. Costs what [`peek`](TreeIndexOf::peek) does.
    ///
    /// ```
    /// pub fn is_sold(stock: &TreeIndex<u64, u64>, article: u64) -> bool
    ///     ensures { IsTrue result ↔ IsPresent nat_cmp stock.now.pairs article }
    /// {
    ///     stock.contains(&article)
    /// }
    /// ```
    pub fn contains(&self, key: &K) -> bool
        ensures { IsTrue result ↔ IsPresent K.cmp self.now.pairs key.now }
    {
        self.peek_entry(key).is_some()
    }

    /// Returns the number of pairs, or `usize::MAX` if there are more. Runs in constant time.
    ///
    /// ```
    /// self.owners.len() < MOST && self.owners.insert_sync(name, owner).is_ok()
    /// ```
    pub fn len(&self) -> usize
        ensures { result ≡ min (length self.now.pairs) (2 ^ 64 - 1) }
    {
        self.len.min(usize::MAX as u128) as usize
    }

    /// Returns whether the index is empty. Runs in constant time.
    ///
    /// ```
    /// let was_empty = stock.is_empty();
    /// stock.clear();
    /// !was_empty
    /// ```
    pub fn is_empty(&self) -> bool
        ensures { IsTrue result ↔ (self.now.pairs ≡ []) }
    {
        self.len == 0
    }

    /// Returns the number of levels of nodes: 0 without a root, and 1 if the root is a leaf node. A
    /// root that is a leaf node stays when its last pair is removed, so the depth is 1 then. After
    /// [`clear`](TreeIndexOf::clear) it is 0.
    ///
    /// At depth *d* there are at most `LEN * (LEN + 1)^d` pairs, and none at depth 0. If *d* is
    /// above 1 and the index is packed, there are more than `LEN^d`. Runs in constant time.
    ///
    /// ```
    /// let copy = index.try_clone(alloc)?;
    /// assert!(rt; are_equal(&copy, index) && copy.len() == 100 && copy.depth() == 2);
    /// ```
    pub fn depth(&self) -> usize
        ensures depth { result ≡ self.now.depth }
        ensures none { self.now.depth ≡ 0 → self.now.pairs ≡ [] }
        ensures bound { length self.now.pairs ≤ LEN * (LEN + 1) ^ self.now.depth }
        ensures packed { self.now.packed ≡ true → IsShallow LEN (length self.now.pairs) self.now.depth }
    {
        match self.tree.root {
            Some(root) => root.level,
            None => 0,
        }
    }

    /// Returns how many writes are sure not to allocate, whatever their keys: the least number that
    /// any leaf takes, and 0 without a leaf. A leaf takes as many writes as it has slots never
    /// used. If it is sure to be rebuilt in place once these are filled, it takes as many as it
    /// has slots without a pair. Reads every node and leaf, and makes no comparisons.
    ///
    /// ```
    /// samples.spare() > 0 && samples.upsert_sync(time, value).is_ok()
    /// ```
    pub fn spare(&self) -> u8
        ensures { result ≡ self.now.spare }
    {
        match self.tree.root {
            Some(root) => spare_at(&self.tree.arenas, root.level, root.id),
            None => 0,
        }
    }

    /// Returns the arenas of the tree, and the number of its root if it has one. Every number in
    /// use in the arenas is reached from the root exactly once. Runs in constant time.
    ///
    /// ```
    /// let (arenas, _) = index.parts();
    /// arenas.leaf_count()
    /// ```
    pub fn parts(&self) -> (&ArenasOf<K, V, LEN>, Option<NodeId>)
        ensures { IsTreeOf K.cmp self.now result.0.now result.1 }
    {
        match self.tree.root {
            Some(root) => (&self.tree.arenas, Some(root.id)),
            None => (&self.tree.arenas, None),
        }
    }

    // Stores a pair and counts it. With `UPSERT` it replaces the pair with an equal key.
    #[inline(always)]
    fn store<const UPSERT: bool>(&mut self, key: K, value: V) -> Result<Stored, InsertError<K, V>>
        ensures { StoresPair K.cmp UPSERT LEN self.old self.new key value result }
    {
        match self.tree.store::<UPSERT>(key, value) {
            Ok(Stored::New) => {
                // Each pair has a slot of its own, so their number fits.
                let _ = self.tree.slots();
                self.len += 1;
                Ok(Stored::New)
            }
            Ok(Stored::Replaced) => Ok(Stored::Replaced),
            Err(error) => Err(error),
        }
    }
}

// Returns true, whatever the value.
fn always<V>(_: &V) -> bool
    ensures { result ≡ true }
{
    true
}

impl<K: IndexKey, V: Drop, const LEN: usize> Seeks<K, V> for TreeIndexOf<K, V, LEN> {
    ghost pairs = { λ index. index.pairs };

    #[inline(always)]
    fn seek<J: Judge<K>>(&self, judge: &mut J) -> Option<(&K, &V)> {
        self.peek_entry_by(judge)
    }
}

impl<K: IndexKey + fmt::Debug, V: Drop + fmt::Debug, const LEN: usize> fmt::Debug
    for TreeIndexOf<K, V, LEN> {
    fn fmt<W: fmt::Write>(&self, f: &mut fmt::Formatter<W>) -> fmt::Result {
        let depth = self.depth();
        write!(f, "TreeIndex {{ depth: {depth}, entries: ")?;
        list_pairs(self.iter(), f)?;
        write!(f, " }}")
    }
}
