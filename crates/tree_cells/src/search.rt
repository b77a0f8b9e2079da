//! Searches of an array by halving.
ghost use Rattle.std.specs.Prelude.{◌≡◌, ◌+◌, ◌-◌, ◌*◌, ◌<◌, ◌≤◌, min};
ghost use Rattle.tree_cells.specs.Arrivals.{held};
ghost use Rattle.tree_cells.specs.Place.{searched, IsPlace, IsWindow, slot_of};
ghost use Rattle.tree_cells.specs.Tabled.{AreSlots, IsInOrder};
ghost use Rattle.tree_cells.specs.Length.{IsLen};
ghost use Rattle.tree_cells.specs.Order.{named, names};

use crate::cells::Cells;
use crate::judge::Asks;
use crate::order::{BEYOND, Order, slot_at};
use std::cmp::Ordering;
use std::mem::size_of_val;

// Keys of more bytes are compared with a branch for each answer: so a processor reads on before an
// expensive comparison is done.
const WIDE: usize = 16;

/// Where a key is in the order of an array.
#[derive(Clone, Copy)]
pub enum Place {
    /// The key equals that of the entry at this place, which is stored in this slot.
    At { place: u8, slot: u8 },
    /// The key belongs before the entry at this place, which is stored in this slot; or after all
    /// entries, and then the slot is [`BEYOND`].
    Before { place: u8, slot: u8 },
}

impl Place {
    /// Returns the slot of the entry, or [`BEYOND`] after all entries.
    pub fn slot(self) -> u8
        ensures { result ≡ slot_of self }
    {
        match self {
            Place::At { place: _, slot } => slot,
            Place::Before { place: _, slot } => slot,
        }
    }
}

// What a search has found out: all entries before `place` have smaller keys, and none behind the
// window has.
#[derive(Clone, Copy)]
struct Window {
    place: u8,
    // The order from the place on.
    rest: u64,
    // How many of the keys that were met are equal.
    met: u8,
}

impl Window {
    // Returns the place of the equal key, which was met at the end of the window, among so many
    // entries.
    fn end(self, width: u8, count: u8) -> Place
        requires some { 0 < count }
        requires within { self.place + width < 15 }
        ensures { result ≡ Place.At (min (self.place + width) (count - 1)) (named self.rest width) }
    {
        let place = self.place + width;
        let slot = slot_at(self.rest, width);
        if place < count {
            Place::At { place, slot }
        } else {
            Place::At {
                place: count - 1,
                slot,
            }
        }
    }
}

// Returns how many equal keys are met before a search goes on in spite of one. One ends a search
// among wide keys, and none one among others.
#[inline(always)]
fn ignored<K>(key: &K) -> u8 {
    if size_of_val(key) > WIDE { 0 } else { u8::MAX }
}

/// Finds where the sought key is. Makes at most 4 comparisons among 15 slots, and 3 among 7.
///
/// A search for a small key makes them all, and has no branch on the result of one. For a key of
/// more than 16 bytes an equal one ends the search.
#[tactic(auto, using(crate::proofs::Halving::searched_some, crate::proofs::Words::len_small))]
#[inline(always)]
pub fn find<K: Ord, V, By, A: Asks<K, By>, const LEN: usize>(
    cells: &Cells<K, V, LEN>,
    order: Order<LEN>,
    asked: &mut A,
) -> Place
    requires len { IsLen LEN }
    requires in_order { IsInOrder K.cmp cells.now.pairs (names order.word order.count) }
    ensures place { IsPlace K.cmp (held cells.now.pairs (names order.entry.word order.entry.count)) (A.key asked.old)
        (names order.entry.word order.entry.count) result }
    ensures same_key { A.key asked.new ≡ A.key asked.old }
    ensures counted { A.count asked.new ≤ A.count asked.old + searched LEN }
{
    if order.count == 0 {
        return Place::Before {
            place: 0,
            slot: BEYOND,
        };
    }
    let ignored = ignored(cells.key(order.slot_at(0)));
    let window = begin(cells, order, asked);
    if window.met > ignored {
        return window.end(7, order.count);
    }
    let window = halve(cells, order, window, 3, asked);
    if window.met > ignored {
        return window.end(3, order.count);
    }
    let window = halve(cells, order, window, 1, asked);
    if window.met > ignored {
        return window.end(1, order.count);
    }
    let window = halve(cells, order, window, 0, asked);
    let slot = slot_at(window.rest, 0);
    if window.met > 0 {
        Place::At {
            place: window.place,
            slot,
        }
    } else {
        Place::Before {
            place: window.place,
            slot,
        }
    }
}

// Begins with a window of seven places.
#[tactic(auto, using(crate::proofs::Halving::searched_more))]
#[inline(always)]
fn begin<K: Ord, V, By, A: Asks<K, By>, const LEN: usize>(
    cells: &Cells<K, V, LEN>,
    order: Order<LEN>,
    asked: &mut A,
) -> Window
    requires len { IsLen LEN }
    requires slots { AreSlots K.cmp LEN cells.now.pairs order.word order.count }
    ensures window { IsWindow K.cmp cells.now.pairs order.entry.word (A.key asked.new) LEN
        result.place result.rest result.met 7 }
    ensures same_key { A.key asked.new ≡ A.key asked.old }
    ensures counted { A.count asked.new ≤ A.count asked.old + (searched LEN - 3) }
{
    let all = Window {
        place: 0,
        rest: order.word,
        met: 0,
    };
    if LEN > 7 {
        halve(cells, order, all, 7, asked)
    } else {
        all
    }
}

// Halves a window, by one comparison with the key in its middle.
#[inline(always)]
fn halve<K: Ord, V, By, A: Asks<K, By>, const LEN: usize>(
    cells: &Cells<K, V, LEN>,
    order: Order<LEN>,
    window: Window,
    half: u8,
    asked: &mut A,
) -> Window
    requires slots { AreSlots K.cmp LEN cells.now.pairs order.word order.count }
    requires window { IsWindow K.cmp cells.now.pairs order.word (A.key asked.old) LEN
        window.place window.rest window.met (2 * half + 1) }
    ensures window { IsWindow K.cmp cells.now.pairs order.entry.word (A.key asked.new) LEN
        result.place result.rest result.met half }
    ensures same_key { A.key asked.new ≡ A.key asked.old }
    ensures counted { A.count asked.new ≤ A.count asked.old + 1 }
{
    let stored = cells.key(slot_at(window.rest, half));
    let answer = asked.ask(stored);
    if size_of_val(stored) > WIDE {
        return match answer {
            Ordering::Less => window,
            Ordering::Equal => Window {
                place: window.place,
                rest: window.rest,
                met: window.met + 1,
            },
            Ordering::Greater => Window {
                place: window.place + half + 1,
                rest: window.rest >> (4 * half + 4),
                met: window.met,
            },
        };
    }
    let met = window.met + answer.is_eq() as u8;
    let (place, rest) = if answer.is_gt() {
        (window.place + half + 1, window.rest >> (4 * half + 4))
    } else {
        (window.place, window.rest)
    };
    Window { place, rest, met }
}

/// Finds where a key is, with comparisons that nobody counts.
#[inline(always)]
pub fn find_key<K: Ord, V, const LEN: usize>(
    cells: &Cells<K, V, LEN>,
    order: Order<LEN>,
    key: &K,
) -> Place
    requires len { IsLen LEN }
    requires in_order { IsInOrder K.cmp cells.now.pairs (names order.word order.count) }
    ensures { IsPlace K.cmp (held cells.now.pairs (names order.entry.word order.entry.count)) key.now
        (names order.entry.word order.entry.count) result }
{
    find(cells, order, &mut &*key)
}

/// Finds where a key is, as [`find_key`] does. With `rightmost` it first compares the key with the
/// last one, and ends if the key is larger, as keys that arrive in ascending order are. That is at
/// most one comparison more.
#[inline(always)]
pub fn find_key_beyond<K: Ord, V, const LEN: usize>(
    cells: &Cells<K, V, LEN>,
    order: Order<LEN>,
    key: &K,
    rightmost: bool,
) -> Place
    requires len { IsLen LEN }
    requires in_order { IsInOrder K.cmp cells.now.pairs (names order.word order.count) }
    ensures { IsPlace K.cmp (held cells.now.pairs (names order.entry.word order.entry.count)) key.now
        (names order.entry.word order.entry.count) result }
{
    if rightmost && order.count > 0 {
        let last = order.last();
        if key.cmp(cells.key(last)).is_gt() {
            return Place::Before {
                place: order.count,
                slot: BEYOND,
            };
        }
    }
    find_key(cells, order, key)
}
