//! One caller of each call that otherwise only tests outside the gate make. The proof of a caller
//! shows that what its call requires can be met.
use crate::indexes::fill;
use crate::keys::Tagged;
use std::alloc::{AllocError, Global};
use std::cmp::Ordering;
use std::hash::{DefaultHasher, Hash, Hasher};
use std::ops::Bound;
use std::process::Abort;
use test_support::refusals::succeeds;
use tree_index::{IterOf, Move, ProximityOf, TreeIndex, run_moves};

// A pair of numbers, if there is one.
type Entry = Option<(u64, u64)>;

// The numbers that a cursor lends.
fn numbers(pair: Option<(&u64, &u64)>) -> Entry {
    let (key, value) = pair?;
    Some((*key, *value))
}

// Whether a cursor between two pairs shows both, and has left the list at both ends after a move
// of each.
fn leaves_both_ends(index: &TreeIndex<u64, u64>) -> bool {
    let ProximityOf::Between(ends) = index.locate(&2) else {
        return false;
    };
    let mut ends = ends;
    let told = [
        numbers(ends.get()),
        numbers(ends.get_back()),
        numbers(ends.next()),
        numbers(ends.next_back()),
    ];
    told == [Some((1, 1)), Some((3, 2)), None, None]
}

// Whether a clone of a range moves alone, and the cursor that is made of the range goes on from its
// place, beyond its bounds, and turns about.
fn moves_alone(index: &TreeIndex<u64, u64>) -> Result<bool, AllocError> {
    let mut range = index.range((Bound::Excluded(&1), Bound::Excluded(&5)));
    let mut other = range.clone()?;
    let ends = [numbers(range.next()), numbers(other.next_back())];
    let mut opened = IterOf::from(range);
    let next = numbers(opened.next());
    Ok(ends == [Some((3, 2)), Some((3, 2))] && next == Some((5, 3)) && opened.flip())
}

// How many answers the moves of a cursor have.
fn moves_at_once(alloc: Global, index: &TreeIndex<u64, u64>) -> Result<usize, AllocError> {
    let mut iter = index.iter();
    let given = run_moves(alloc, &mut iter, &[Move::Next, Move::Flip])?;
    Ok(given.len())
}

// The last key and the last value, by walks over either alone.
fn last_of_each(index: &TreeIndex<u64, u64>) -> (Option<u64>, Option<u64>) {
    (
        index.keys().next_back().copied(),
        index.values().next_back().copied(),
    )
}

// What the hasher of the standard library makes of an index.
fn hashed(index: &TreeIndex<u64, u64>) -> u64 {
    let mut hasher = DefaultHasher::new();
    index.hash(&mut hasher);
    hasher.finish()
}

// Whether two indexes are equal, one way round and the other, and whether the first one equals
// itself.
fn compared(first: &TreeIndex<u64, u64>, second: &TreeIndex<u64, u64>) -> (bool, bool, bool) {
    (first == second, second == first, first == first)
}

// Orders two indexes.
fn expect_order(
    rt: &impl Abort,
    first: &TreeIndex<u64, u64>,
    second: &TreeIndex<u64, u64>,
    order: Ordering,
) {
    assert!(rt; first.partial_cmp(second) == Some(order));
    assert!(rt; first.cmp(second) == order);
}

// Compares an index with its clone, which is equal to it until it gets another pair.
fn compares_with_its_clone(
    rt: &impl Abort,
    alloc: Global,
    index: &TreeIndex<u64, u64>,
) -> Result<(), AllocError> {
    let mut copy = index.clone()?;
    assert!(rt; compared(index, &copy) == (true, true, true) && hashed(index) == hashed(&copy));
    let more = vec![in alloc; (9, 5)]?;
    if copy.try_extend(more).is_err() {
        return Err(AllocError);
    }
    expect_order(rt, index, &copy, Ordering::Less);
    Ok(())
}

// Makes each call over an index of four pairs.
fn expect_calls(
    rt: &impl Abort,
    alloc: Global,
    index: &mut TreeIndex<u64, u64>,
) -> Result<(), AllocError> {
    fill(index, &[(1, 1), (3, 2), (5, 3), (7, 4)])?;
    assert!(rt; leaves_both_ends(index) && moves_alone(index)?);
    assert!(rt; moves_at_once(alloc, index)? == 2 && last_of_each(index) == (Some(7), Some(4)));
    compares_with_its_clone(rt, alloc, index)
}

fn calls_steps(rt: &impl Abort, alloc: Global) -> Result<(), AllocError> {
    let mut index: TreeIndex<u64, u64> = TreeIndex::new(alloc);
    expect_calls(rt, alloc, &mut index)
}

// An index whose keys have tags.
trait TaggedKeys {
    // Returns the tag and the value that `peek_entry` finds at the key 5.
    fn entry(&self, tag: char) -> Option<(char, u64)>;
}

// The key 5 with a tag, which its order doesn't see.
fn five(tag: char) -> Tagged {
    Tagged { number: 5, tag }
}

impl TaggedKeys for TreeIndex<Tagged, u64> {
    fn entry(&self, tag: char) -> Option<(char, u64)> {
        self.peek_entry(&five(tag))
            .map(|(key, value)| (key.tag, *value))
    }
}

fn tagged_steps(rt: &impl Abort, alloc: Global) -> Result<(), AllocError> {
    let mut index: TreeIndex<Tagged, u64> = TreeIndex::new(alloc);
    if index.upsert_sync(five('a'), 1).is_err() {
        return Err(AllocError);
    }
    assert!(rt; index.entry('b') == Some(('a', 1)));
    Ok(())
}

// An index of names.
trait Names {
    // Calls `replace_sync`.
    fn replace(&mut self, key: u64, name: String) -> Result<String, String>;
}

impl Names for TreeIndex<u64, String> {
    fn replace(&mut self, key: u64, name: String) -> Result<String, String> {
        self.replace_sync(&key, name)
    }
}

fn names_steps(rt: &impl Abort, alloc: Global) -> Result<(), AllocError> {
    let mut names: TreeIndex<u64, String> = TreeIndex::new(alloc);
    let pear = String::from_str(alloc, "pear")?;
    assert!(rt; names.replace(1, pear).is_err());
    Ok(())
}

// The first and the last pair that an index gives by value.
fn ends_by_value(index: TreeIndex<u64, u64>) -> (Entry, Entry) {
    let mut pairs = index.into_iter();
    (pairs.next(), pairs.next_back())
}

// Collects pairs, and gives those at both ends.
fn collects_steps(rt: &impl Abort, alloc: Global) -> Result<(), AllocError> {
    let pairs = vec![in alloc; (2, 20), (1, 10), (3, 30)]?;
    let index: TreeIndex<u64, u64> = pairs.into_iter().collect(alloc)?;
    assert!(rt; ends_by_value(index) == (Some((1, 10)), Some((3, 30))));
    Ok(())
}

#[test]
fn makes_each_call(rt: HostRuntime) {
    assert!(rt;
        succeeds(rt.alloc(), || {
            calls_steps(&rt, rt.alloc())?;
            tagged_steps(&rt, rt.alloc())?;
            names_steps(&rt, rt.alloc())?;
            collects_steps(&rt, rt.alloc())
        })
    );
}
