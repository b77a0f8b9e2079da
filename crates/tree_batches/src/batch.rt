//! A batch of keys, each with its answer.
ghost use Rattle.std.specs.Prelude.{◌≡◌, ◌≤◌, ◌<◌, ◌+◌, ◌-◌, length, get_or};
ghost use Rattle.tree_batches.specs.Batches.{Advances, IsEmpty};

/// How many keys are looked up together.
pub(crate) const BATCH: usize = 8;

/// Which keys of a list have their answers, and which were answered.
#[derive(Drop)]
pub struct Batch<X> {
    // The answer for each key from `start` up to `end`.
    pub(crate) found: [X; BATCH],
    pub(crate) start: usize,
    pub(crate) end: usize,
    // How many keys of the list were answered.
    pub(crate) answered: usize,
}

impl<X: Copy + Drop> Batch<X> {
    // Returns a batch without a key, at the begin of a list.
    pub(crate) fn empty(filler: X) -> Self
        ensures { IsEmpty result }
    {
        Batch {
            found: [filler; BATCH],
            start: 0,
            end: 0,
            answered: 0,
        }
    }

    // Returns how many keys were answered.
    #[inline(always)]
    pub(crate) fn answered(&self) -> usize
        ensures { result ≡ self.now.answered }
    {
        self.answered
    }

    // Takes the answer for the first key that wasn't answered.
    #[inline(always)]
    pub(crate) fn take_first(&mut self) -> X
        requires more { self.old.answered < self.old.end }
        requires begun { self.old.start ≤ self.old.answered }
        requires few { self.old.end ≤ self.old.start + 8 }
        requires long { length self.old.found ≡ 8 }
        ensures found { result ≡ get_or self.old.found (self.old.answered - self.old.start) result }
        ensures next { Advances self.old self.new }
    {
        let place = self.answered - self.start;
        self.answered += 1;
        at_place(&self.found, place)
    }
}

// Returns the element at a place. An array of a type parameter is read as a slice.
#[inline(always)]
fn at_place<X: Copy>(found: &[X], place: usize) -> X
    requires { place < length found.now }
    ensures { result ≡ get_or found.now place result }
{
    found[place]
}
