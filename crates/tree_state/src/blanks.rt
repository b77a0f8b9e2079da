//! What the ledgers of a shared index are made from.
ghost use Rattle.std.specs.Prelude.{◌≡◌, ◌+◌, ◌<◌};

use std::fmt;
use std::sync::ledger::Blank;

/// A blank for each of the five ledgers of a shared index.
#[derive(Drop)]
pub struct Blanks {
    /// For the number of calls.
    pub calls: Blank,
    /// For the number of stored pairs.
    pub stored: Blank,
    /// For the number of removals that removed a pair.
    pub removed: Blank,
    /// For the number of look-ups that found a value.
    pub found: Blank,
    /// For the number of removals of a range and of all pairs.
    pub done: Blank,
}

impl Blanks {
    /// Creates blanks for `workers` passes: a part for each, and one that stays with the
    /// index. Runs in constant time.
    ///
    /// ```
    /// claim_both::<Brand, Brand, Brand, Brand, Brand, R>(rt, alloc, numbers, Blanks::new(2))
    /// ```
    pub fn new(workers: usize) -> Blanks
        requires { workers < usize.MAX }
        ensures calls { result.calls.parts ≡ workers + 1 }
        ensures stored { result.stored.parts ≡ workers + 1 }
        ensures removed { result.removed.parts ≡ workers + 1 }
        ensures found { result.found.parts ≡ workers + 1 }
        ensures done { result.done.parts ≡ workers + 1 }
    {
        let parts = workers as u64 + 1;
        Blanks {
            calls: Blank::new(parts),
            stored: Blank::new(parts),
            removed: Blank::new(parts),
            found: Blank::new(parts),
            done: Blank::new(parts),
        }
    }
}

impl fmt::Debug for Blanks {
    fn fmt<W: fmt::Write>(&self, f: &mut fmt::Formatter<W>) -> fmt::Result {
        write!(f, "Blanks {{ .. }}")
    }
}
