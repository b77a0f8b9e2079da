//! Keys and values that are counted: each is dropped once, and a clone of a key may fail.
ghost use Rattle.std.specs.Prelude.{◌≡◌};
ghost use Rattle.tree_model.specs.Keys.{equal_numbers};

use std::alloc::{AllocError, Global};
use std::cell::Cell;
use std::ops::Bound;
use std::process::Abort;
use test_support::chance::Chance;
use test_support::refusals::succeeds;
use tree_index::{InsertError, TreeIndexOf};
use tree_model::IndexKey;

// How many were made and dropped, and whether clones fail.
#[derive(Drop)]
struct Tally {
    made: Cell<u64>,
    dropped: Cell<u64>,
    refuses: Cell<bool>,
}

impl Tally {
    fn new() -> Self {
        Tally {
            made: Cell::new(0),
            dropped: Cell::new(0),
            refuses: Cell::new(false),
        }
    }

    // Whether so many are alive, and each of the others was dropped once.
    fn has_alive(&self, alive: usize) -> bool {
        self.made.get() == self.dropped.get().saturating_add(alive as u64)
    }
}

// A number that is counted where it is made, cloned and dropped, and compares by the number alone.
#[derive_where(PartialEq, Eq, PartialOrd, Ord)]
struct Counted<'c> {
    number: u64,
    #[derive_where(skip(EqHashOrd))]
    tally: &'c Tally,
}

impl<'c> Counted<'c> {
    fn new(number: u64, tally: &'c Tally) -> Self
        ensures { result.number ≡ number }
    {
        tally.made.set(tally.made.get().saturating_add(1));
        Counted { number, tally }
    }
}

impl Drop for Counted<'_> {
    fn drop(self) {
        let Counted { number: _, tally } = self;
        tally.dropped.set(tally.dropped.get().saturating_add(1));
    }
}

impl Clone for Counted<'_> {
    ghost is_clone = { λ key clone. clone.number ≡ key.number };

    ghost is_infallible = { λ _. ⊥ };

    fn clone(&self) -> Result<Self, AllocError> {
        if self.tally.refuses.get() {
            return Err(AllocError);
        }
        Ok(Counted::new(self.number, self.tally))
    }
}

impl IndexKey for Counted<'_> {
    ghost clone_equal = { λ x y h. equal_numbers x.number y.number h };
}

type Index<'c, const LEN: usize> = TreeIndexOf<Counted<'c>, Counted<'c>, LEN>;

// The pair that is returned, if an allocation failed.
type Refused<'c> = Option<(Counted<'c>, Counted<'c>)>;

// What an insert returns.
type Inserted<'c> = Result<(), InsertError<Counted<'c>, Counted<'c>>>;

// An index of counted keys and values, as its tests call it.
trait CountedPairs<'c> {
    // Calls `insert_sync`.
    fn insert(&mut self, key: Counted<'c>, value: Counted<'c>) -> Inserted<'c>;

    // Calls `upsert_sync`.
    fn upsert(&mut self, key: Counted<'c>, value: Counted<'c>) -> Refused<'c>;

    // Calls `remove_sync`.
    fn remove(&mut self, key: &Counted<'c>);

    // Removes the pair of a key by `remove_if_sync` if its value is even.
    fn remove_even(&mut self, key: &Counted<'c>);

    // Removes the keys from one to below another by `remove_range_sync`.
    fn remove_range(&mut self, low: &Counted<'c>, high: &Counted<'c>);

    // Calls `clear`.
    fn clear(&mut self);

    // Returns whether `peek` finds a key.
    fn has(&self, key: &Counted<'c>) -> bool;

    // Calls `len`.
    fn len(&self) -> usize;

    // Returns the number of leaves.
    fn leaves(&self) -> usize;
}

impl<'c, const LEN: usize> CountedPairs<'c> for Index<'c, LEN> {
    fn insert(&mut self, key: Counted<'c>, value: Counted<'c>) -> Inserted<'c> {
        self.insert_sync(key, value)
    }

    fn upsert(&mut self, key: Counted<'c>, value: Counted<'c>) -> Refused<'c> {
        self.upsert_sync(key, value).err()
    }

    fn remove(&mut self, key: &Counted<'c>) {
        let _ = self.remove_sync(key);
    }

    fn remove_even(&mut self, key: &Counted<'c>) {
        let _ = self.remove_if_sync(key, |value| value.number % 2 == 0);
    }

    fn remove_range(&mut self, low: &Counted<'c>, high: &Counted<'c>) {
        self.remove_range_sync((Bound::Included(low), Bound::Excluded(high)));
    }

    fn clear(&mut self) {
        TreeIndexOf::clear(self);
    }

    fn has(&self, key: &Counted<'c>) -> bool {
        self.peek(key).is_some()
    }

    fn len(&self) -> usize {
        TreeIndexOf::len(self)
    }

    fn leaves(&self) -> usize {
        leaf_count(self)
    }
}

// The number of leaves of an index.
fn leaf_count<const LEN: usize>(index: &Index<'_, LEN>) -> usize {
    let (arenas, _) = index.parts();
    arenas.leaf_count()
}

// Whether what is alive is what the index holds: each pair a key and a value, and each leaf but
// the last a separator.
fn keeps_alive<'c>(index: &impl CountedPairs<'c>, tally: &Tally) -> bool {
    let separators = index.leaves().saturating_sub(1);
    let held = index.len().saturating_mul(2).saturating_add(separators);
    tally.has_alive(held)
}

// The pair for which an insert could not allocate.
fn pair_of(inserted: Inserted<'_>) -> Refused<'_> {
    match inserted {
        Err(InsertError::OutOfMemory(key, value)) => Some((key, value)),
        _ => None,
    }
}

// `Err` if an allocation failed.
fn outcome(refused: Refused<'_>) -> Result<(), AllocError> {
    match refused {
        Some(_) => Err(AllocError),
        None => Ok(()),
    }
}

// Makes one random call. Returns `Err` if an allocation failed.
fn call<'c>(
    index: &mut impl CountedPairs<'c>,
    chance: &mut Chance,
    tally: &'c Tally,
) -> Result<(), AllocError> {
    let number = chance.below(300);
    let key = Counted::new(number, tally);
    match chance.below(40) {
        0..16 => return outcome(pair_of(index.insert(key, Counted::new(number, tally)))),
        16..26 => return outcome(index.upsert(key, Counted::new(number, tally))),
        26..31 => index.remove_even(&key),
        31 => {
            let end = Counted::new(number.saturating_add(40), tally);
            index.remove_range(&key, &end);
        }
        32 if number < 100 => index.clear(),
        _ => index.remove(&key),
    }
    Ok(())
}

// Makes random calls, and counts what is alive after each.
fn make_calls<'c>(
    rt: &impl Abort,
    index: &mut impl CountedPairs<'c>,
    tally: &'c Tally,
) -> Result<(), AllocError> {
    let mut chance = Chance::new(1);
    for _ in 0..4000 {
        let outcome = call(index, &mut chance, tally);
        assert!(rt; keeps_alive(index, tally));
        outcome?;
    }
    Ok(())
}

// Whether of the greatest keys, from this one on, all but this one are there.
fn lacks_it_alone<'c>(index: &impl CountedPairs<'c>, tally: &'c Tally, number: u64) -> bool {
    for other in number..300 {
        if index.has(&Counted::new(other, tally)) == (other == number) {
            return false;
        }
    }
    true
}

// Stores an absent key, by an insert if it is even and else by an upsert. Returns the pair if an
// allocation failed.
fn store<'c>(index: &mut impl CountedPairs<'c>, tally: &'c Tally, number: u64) -> Refused<'c> {
    let (key, value) = (Counted::new(number, tally), Counted::new(number, tally));
    if number % 2 == 1 {
        index.upsert(key, value)
    } else {
        pair_of(index.insert(key, value))
    }
}

// Stores a key while clones fail, and again with clones if it wasn't stored. Returns whether that
// was so.
fn store_twice<'c>(
    rt: &impl Abort,
    index: &mut impl CountedPairs<'c>,
    tally: &'c Tally,
    number: u64,
) -> Result<bool, AllocError> {
    tally.refuses.set(true);
    let refused = store(index, tally, number);
    tally.refuses.set(false);
    let Some((key, value)) = refused else {
        return Ok(false);
    };
    let numbers = [key.number, value.number];
    assert!(rt; numbers == [number, number] && lacks_it_alone(index, tally, number));
    if index.insert(key, value).is_err() {
        return Err(AllocError);
    }
    Ok(true)
}

// Stores descending keys while clones fail. Returns how many weren't stored.
fn refused_clones<'c>(
    rt: &impl Abort,
    index: &mut impl CountedPairs<'c>,
    tally: &'c Tally,
) -> Result<u64, AllocError> {
    let mut refused = 0u64;
    for number in (0..300).rev() {
        if store_twice(rt, index, tally, number)? {
            refused = refused.saturating_add(1);
        }
        assert!(rt; keeps_alive(index, tally));
    }
    assert!(rt; index.len() == 300);
    Ok(refused)
}

// What is done with an index.
#[derive(Clone, Copy)]
enum Use {
    // Random calls.
    Calls,
    // Stores of descending keys while clones fail.
    Stores,
}

// Uses an index. Returns how many stores failed for a clone.
fn use_index<'c>(
    rt: &impl Abort,
    index: &mut impl CountedPairs<'c>,
    tally: &'c Tally,
    way: Use,
) -> Result<u64, AllocError> {
    match way {
        Use::Calls => {
            make_calls(rt, index, tally)?;
            Ok(0)
        }
        Use::Stores => refused_clones(rt, index, tally),
    }
}

// Uses an index of fifteen slots, and drops it.
fn use_fifteen_slots(
    rt: &impl Abort,
    alloc: Global,
    tally: &Tally,
    way: Use,
) -> Result<u64, AllocError> {
    let mut index: Index<15> = TreeIndexOf::new(alloc);
    use_index(rt, &mut index, tally, way)
}

// Uses an index of seven slots, and drops it.
fn use_seven_slots(
    rt: &impl Abort,
    alloc: Global,
    tally: &Tally,
    way: Use,
) -> Result<u64, AllocError> {
    let mut index: Index<7> = TreeIndexOf::new(alloc);
    use_index(rt, &mut index, tally, way)
}

// Uses an index of each size, of which no key and no value is left then. At least so many stores
// fail for a clone.
fn drops_each_once(
    rt: &impl Abort,
    alloc: Global,
    way: Use,
    (least, least_small): (u64, u64),
) -> Result<(), AllocError> {
    let tally = Tally::new();
    let refused = use_fifteen_slots(rt, alloc, &tally, way);
    assert!(rt; tally.has_alive(0) && refused? >= least);
    let refused = use_seven_slots(rt, alloc, &tally, way);
    assert!(rt; tally.has_alive(0) && refused? >= least_small);
    Ok(())
}

// Whether each key and value is dropped once.
fn drops_once(rt: &impl Abort, alloc: Global, way: Use, least: (u64, u64)) -> bool {
    succeeds(alloc, || drops_each_once(rt, alloc, way, least))
}

// After inserts, refusals of a duplicate and of memory, upserts, removals, splits and cuts, and
// when the index is dropped.
#[test]
fn drops_each_key_and_value_once(rt: HostRuntime) {
    assert!(rt; drops_once(&rt, rt.alloc(), Use::Calls, (0, 0)));
}

// A write that must split clones a separator. If that fails, the pair is returned and no pair
// changed.
#[test]
fn hands_back_the_pair_where_a_clone_is_refused(rt: HostRuntime) {
    assert!(rt; drops_once(&rt, rt.alloc(), Use::Stores, (16, 31)));
}
