//! The cells of an array, keys separate from values. No byte records which cells hold a pair: the
//! order of the array does.
ghost use Rattle.std.specs.Prelude.{◌≡◌, ◌≢◌, ℕ, ◌+◌, ◌-◌, ◌<◌, ◌≤◌, None, Some, IsSome, length, slice_set};
ghost use Rattle.tree_cells.specs.Arrivals.{arrival};
ghost use Rattle.tree_cells.specs.Cells.{bare};
ghost use Rattle.tree_cells.specs.Moves.{HasInTurn, HasLeft};
ghost use Rattle.tree_cells.specs.Order.{named};

use crate::gather::gather;
use std::marker::Model;
use std::mem;
use tree_slots::row::Row;

mod changes;

/// How many entries and arrivals an array has.
#[derive(Clone, Copy)]
pub struct Counts {
    pub entries: u8,
    pub arrivals: u8,
}

// The rows of keys and of values.
//
// The counts are between them: they are read before a search, so that the memory in the middle of a
// leaf is fetched at the same time as its head.
struct Rows<K, V, const LEN: usize> {
    keys: Row<K, LEN>,
    counts: Counts,
    vals: Row<V, LEN>,
}

/// The cells, each with a pair or none, and the counts of their array. There are no rows before the
/// first pair, whose bytes then fill them, and the counts are 0.
pub struct Cells<K, V, const LEN: usize> {
    rows: Option<Rows<K, V, LEN>>,
}

impl<K, V, const LEN: usize> Model for Cells<K, V, LEN> {
    ghost use Rattle.std.specs.Prelude.{MatchOption, ⊤};
    ghost use Rattle.tree_cells.specs.Cells.{zipped, seen_cells, AreFilledAlike, Held};

    ghost Value = { Held K V };

    ghost view = { λ c. seen_cells LEN (λ rows. record { pairs = zipped rows.keys.slots rows.vals.slots; counts = rows.counts }) c.rows };

    ghost invariant = { λ c. MatchOption c.rows ⊤ (λ rows. AreFilledAlike rows.keys.slots rows.vals.slots) };
}

impl<K, V, const LEN: usize> Cells<K, V, LEN> {
    /// Creates cells without a pair.
    pub fn new() -> Self
        ensures { result ≡ bare LEN }
    {
        Cells { rows: None }
    }

    /// Returns the counts.
    #[inline(always)]
    pub fn counts(&self) -> Counts
        ensures entries { result.entries ≡ self.now.counts.entries }
        ensures arrivals { result.arrivals ≡ self.now.counts.arrivals }
    {
        match &self.rows {
            Some(rows) => rows.counts,
            None => Counts {
                entries: 0,
                arrivals: 0,
            },
        }
    }

    /// Sets the count of the entries, of which there are no more than arrivals.
    #[inline(always)]
    pub fn set_entries(&mut self, entries: u8)
        requires { entries ≤ self.old.counts.arrivals }
        ensures pairs { self.new.pairs ≡ self.old.pairs }
        ensures entries { self.new.counts.entries ≡ entries }
        ensures arrivals { self.new.counts.arrivals ≡ self.old.counts.arrivals }
    {
        if let Some(rows) = &mut self.rows {
            rows.counts.entries = entries;
        }
    }

    /// Returns the key of a cell. The caller must name a cell that holds a pair.
    #[inline]
    pub fn key(&self, cell: u8) -> &K
        requires { IsSome (arrival self.now.pairs cell) }
        ensures { (val : V) × (arrival self.now.pairs cell ≡ Some (result.now, val)) }
    {
        match &self.rows {
            Some(rows) => rows.keys.get(cell as usize),
            None => unreachable!(),
        }
    }

    /// Returns the pair of a cell. The caller must name a cell that holds one.
    #[inline]
    pub fn pair(&self, cell: u8) -> (&K, &V)
        requires { IsSome (arrival self.now.pairs cell) }
        ensures { arrival self.now.pairs cell ≡ Some (result.0.now, result.1.now) }
    {
        match &self.rows {
            Some(rows) => (rows.keys.get(cell as usize), rows.vals.get(cell as usize)),
            None => unreachable!(),
        }
    }

    /// Puts a pair into the first cell after the arrivals, and sets the count of the entries. The
    /// caller must have such a cell, which holds none.
    pub fn push(&mut self, key: K, val: V, entries: u8)
        requires within { self.old.counts.arrivals < LEN }
        requires few { LEN ≤ 15 }
        requires empty { arrival self.old.pairs self.old.counts.arrivals ≡ None }
        ensures pairs { self.new.pairs ≡ slice_set self.old.pairs self.old.counts.arrivals (Some (key, val)) }
        ensures entries { self.new.counts.entries ≡ entries }
        ensures arrivals { self.new.counts.arrivals ≡ self.old.counts.arrivals + 1 }
    {
        match &mut self.rows {
            Some(rows) => {
                let cell = rows.counts.arrivals;
                rows.keys.put(cell as usize, key);
                rows.vals.put(cell as usize, val);
                rows.counts = Counts {
                    entries,
                    arrivals: cell + 1,
                };
            }
            None => self.begin(key, val, entries),
        }
    }

    // Makes the rows, with a pair in the first cell. Its own function, so that a put into rows
    // that are there is short.
    #[inline(never)]
    fn begin(&mut self, key: K, val: V, entries: u8)
        requires within { 0 < LEN }
        requires bare { self.old ≡ bare LEN }
        ensures pairs { self.new.pairs ≡ slice_set self.old.pairs 0 (Some (key, val)) }
        ensures entries { self.new.counts.entries ≡ entries }
        ensures arrivals { self.new.counts.arrivals ≡ 1 }
    {
        let rows = Rows {
            keys: Row::with(0, key),
            counts: Counts {
                entries,
                arrivals: 1,
            },
            vals: Row::with(0, val),
        };
        let old = mem::replace(&mut self.rows, Some(rows));
        Cells { rows: old }.discard();
    }

    /// Takes the pair of a cell. The caller must name a cell that holds one.
    pub fn take(&mut self, cell: u8) -> (K, V)
        requires { IsSome (arrival self.old.pairs cell) }
        ensures pair { arrival self.old.pairs cell ≡ Some result }
        ensures spent { self.new.pairs ≡ slice_set self.old.pairs cell None }
        ensures counts { self.new.counts ≡ self.old.counts }
    {
        match &mut self.rows {
            Some(rows) => (rows.keys.take(cell as usize), rows.vals.take(cell as usize)),
            None => unreachable!(),
        }
    }

    /// Moves the pairs of the places from `from` up to `end` of an order into the first of other
    /// cells, in turn, and sets the counts of the other cells. Each of these places must name a
    /// pair, no two the same, and the other cells must hold none and count none.
    pub fn take_places(&mut self, order: u64, from: u8, end: u8, to: &mut Self)
        requires ends { from ≤ end }
        requires few { end ≤ LEN }
        requires places { end ≤ 15 }
        requires stands { (i : ℕ) → from ≤ i → i < end → IsSome (arrival self.old.pairs (named order i)) }
        requires apart { (i j : ℕ) → from ≤ i → i < j → j < end → named order i ≢ named order j }
        requires none { (p : ℕ) → arrival to.old.pairs p ≡ None }
        requires whole { length to.old.pairs ≡ LEN }
        requires no_entries { to.old.counts.entries ≡ 0 }
        requires no_arrivals { to.old.counts.arrivals ≡ 0 }
        ensures turn { HasInTurn self.old.pairs to.new.pairs order from end }
        ensures left { HasLeft self.old.pairs self.new.pairs order from end }
        ensures same { length self.new.pairs ≡ length self.old.pairs }
        ensures whole { length to.new.pairs ≡ LEN }
        ensures counts { self.new.counts ≡ self.old.counts }
        ensures entries { to.new.counts.entries ≡ end - from }
        ensures arrivals { to.new.counts.arrivals ≡ end - from }
    {
        if from == end {
            return;
        }
        match &mut self.rows {
            Some(rows) => {
                let spare = Rows {
                    keys: rows.keys.spare(),
                    counts: Counts {
                        entries: end - from,
                        arrivals: end - from,
                    },
                    vals: rows.vals.spare(),
                };
                let old = mem::replace(&mut to.rows, Some(spare));
                Cells { rows: old }.discard();
                if let Some(to) = &mut to.rows {
                    gather(
                        &mut rows.keys,
                        &mut rows.vals,
                        order,
                        from,
                        end,
                        &mut to.keys,
                        &mut to.vals,
                    );
                } else {
                    unreachable!()
                }
            }
            None => unreachable!(),
        }
    }

    /// Replaces the value of a cell and returns the old one. The caller must name a cell that holds
    /// a pair.
    pub fn replace(&mut self, cell: u8, val: V) -> V
        requires { IsSome (arrival self.old.pairs cell) }
        ensures pairs { (key : K) × (arrival self.old.pairs cell ≡ Some (key, result))
            × (self.new.pairs ≡ slice_set self.old.pairs cell (Some (key, val))) }
        ensures counts { self.new.counts ≡ self.old.counts }
    {
        match &mut self.rows {
            Some(rows) => rows.vals.replace(cell as usize, val),
            None => unreachable!(),
        }
    }

    /// Ends the cells, which must hold no pair.
    pub fn discard(self)
        requires { (p : ℕ) → arrival self.pairs p ≡ None }
    {
        let Cells { rows } = self;
        if let Some(rows) = rows {
            let Rows {
                keys,
                counts: _,
                vals,
            } = rows;
            keys.discard();
            vals.discard();
        }
    }
}
