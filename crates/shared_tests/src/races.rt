//! Races over one index: what each racer calls, and what is left then.
ghost use Rattle.std.specs.Prelude.{◌<◌};

use crate::numbers::Row;
use crate::replay::replays;
use std::alloc::{AllocError, Global};
use std::ops::Bound;
use tree_index::{Command, Record, Reply};
use tree_shared::{ClosedOf, Tally};

// What racers do.
#[derive(Clone, Copy)]
pub(crate) enum Race {
    // Two insert the same pairs. Then one pass looks two keys up.
    Inserts,
    // Eight insert, upsert and remove the same keys.
    Edits,
    // Three remove and insert the keys of a range, and a fourth removes a part of it and, now and
    // then, all pairs.
    Cuts,
}

static LOOK_UPS: [Row; 2] = [
    (Command::Peek(50), Reply::Found(Some(50))),
    (Command::Peek(101), Reply::Found(None)),
];

const CUT: Command<u64, u64> = Command::RemoveRange(Bound::Excluded(10), Bound::Included(30));

impl Race {
    // The number of racers.
    pub(crate) fn racers(self) -> usize
        ensures { result < 9 }
    {
        match self {
            Race::Inserts => 2,
            Race::Edits => 8,
            Race::Cuts => 4,
        }
    }

    // How many calls a racer makes.
    pub(crate) fn calls(self, racer: u64) -> u64 {
        match self {
            Race::Inserts => 100,
            Race::Edits => 300,
            Race::Cuts if racer == 3 => 220,
            Race::Cuts => 800,
        }
    }

    // The next call of a racer that has made so many.
    pub(crate) fn call(self, racer: u64, made: u64) -> Command<u64, u64> {
        match self {
            Race::Inserts => Command::Insert(made.saturating_add(1), made.saturating_add(1)),
            Race::Edits => match made % 3 {
                0 => Command::Insert(made / 3 + 1, racer),
                1 => Command::Upsert(made / 3 + 1, racer.saturating_add(1000)),
                _ => Command::Remove(made / 3 + 1),
            },
            Race::Cuts if racer < 3 => match made % 2 {
                0 => Command::Remove(made / 2 % 40 + 1),
                _ => Command::Insert(made / 2 % 40 + 1, racer),
            },
            Race::Cuts if made % 11 < 10 => CUT,
            Race::Cuts => Command::Clear,
        }
    }

    // What one pass calls once all racers have ended.
    pub(crate) fn last_calls(self) -> &'static [Row] {
        match self {
            Race::Inserts => &LOOK_UPS,
            Race::Edits | Race::Cuts => &[],
        }
    }

    // Whether a history has each call of each racer as often as it was made.
    fn has_each_call(self, history: &[Record<u64, u64>]) -> bool {
        for racer in 0..self.racers() as u64 {
            if !self.has_calls_of(history, racer) {
                return false;
            }
        }
        match self {
            Race::Inserts => (1..=100).all(|key| count(history, &Command::Insert(key, key)) == 2),
            Race::Edits => (1..=100).all(|key| count(history, &Command::Remove(key)) == 8),
            Race::Cuts => {
                (1..=40).all(|key| count(history, &Command::Remove(key)) == 30)
                    && count(history, &CUT) == 200
                    && count(history, &Command::Clear) == 20
            }
        }
    }

    // Whether a history has the calls of a racer, in its order.
    fn has_calls_of(self, history: &[Record<u64, u64>], racer: u64) -> bool {
        let mut made = 0u64;
        for record in history {
            if made < self.calls(racer) && record.command == self.call(racer, made) {
                made += 1;
            }
        }
        made == self.calls(racer)
    }

    // Whether this can be the tally and the length if no call was refused.
    fn fits(self, tally: Tally, length: usize) -> bool {
        match self {
            Race::Inserts => {
                let wanted = Tally {
                    calls: 202,
                    stored: 100,
                    removed: 0,
                    found: 1,
                    done: 0,
                };
                tally == wanted && length == 100
            }
            Race::Edits => tally.calls == 2400 && tally.stored >= 900 && length == 0,
            Race::Cuts => tally.calls == 2620 && tally.done == 220,
        }
    }
}

// How often a history has a command.
fn count(history: &[Record<u64, u64>], command: &Command<u64, u64>) -> usize {
    history
        .iter()
        .filter(|record| record.command == *command)
        .count()
}

// Whether the last calls of a history are these.
fn ends_with(history: &[Record<u64, u64>], rows: &[Row]) -> bool {
    for (record, (command, reply)) in history.iter().rev().zip(rows.iter().rev()) {
        if record.command != *command || record.reply != *reply {
            return false;
        }
    }
    history.len() >= rows.len()
}

// Whether the history that a race leaves replays to the index, and has what was called. `Err` if a
// call was refused, or an allocation of this function failed.
pub(crate) fn is_left<const LEN: usize>(
    alloc: Global,
    closed: &ClosedOf<u64, u64, LEN>,
    race: Race,
    served: bool,
) -> Result<bool, AllocError> {
    if !replays(alloc, &closed.history, &closed.index)?
        || closed.tally.calls != closed.history.len() as u64
    {
        return Ok(false);
    }
    if !served {
        return Err(AllocError);
    }
    Ok(
        race.has_each_call(&closed.history)
            && ends_with(&closed.history, race.last_calls())
            && race.fits(closed.tally, closed.index.len()),
    )
}
