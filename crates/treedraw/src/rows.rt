//! What an array holds: the keys in its slots, and the children of a node.

// The most slots of an array.
const MOST_SLOTS: usize = 15;

// The most children of a node.
const MOST_CHILDREN: usize = 16;

/// What is in a slot of a leaf.
#[derive(Clone, Copy, PartialEq, Eq)]
pub enum Slot {
    /// No pair arrived there.
    Unused,
    /// The pair that arrived there was removed or replaced.
    Spent,
    /// The key of a pair.
    Key(u64),
}

impl Slot {
    /// Returns the key, or 0 if there is none.
    pub fn key(self) -> u64 {
        match self {
            Slot::Key(key) => key,
            _ => 0,
        }
    }
}

/// The keys of an array, by slot and in ascending order.
#[derive(Clone, Copy)]
pub struct KeyRow {
    by_slot: [Option<u64>; MOST_SLOTS],
    ascending: [u64; MOST_SLOTS],
    count: usize,
    used: usize,
}

impl KeyRow {
    /// Creates a row without a key, for an array of which so many slots were used.
    pub fn new(used: usize) -> Self {
        KeyRow {
            by_slot: [None; MOST_SLOTS],
            ascending: [0; MOST_SLOTS],
            count: 0,
            used,
        }
    }

    /// Adds a key, which is larger than those before it, with its slot.
    pub fn push(&mut self, slot: u8, key: u64) {
        let slot = usize::from(slot);
        if slot < MOST_SLOTS {
            self.by_slot[slot] = Some(key);
        }
        if self.count < MOST_SLOTS {
            self.ascending[self.count] = key;
            self.count += 1;
        }
    }

    /// Returns how many keys there are.
    pub fn count(&self) -> usize {
        self.count
    }

    /// Returns how many slots were used and have no key any more.
    pub fn spent(&self) -> usize {
        self.used.saturating_sub(self.count)
    }

    /// Returns the largest key, or 0 without a key.
    pub fn largest(&self) -> u64 {
        self.key_at(self.count.saturating_sub(1)).unwrap_or(0)
    }

    /// Returns the key at a place in ascending order, or `None` after the last one.
    pub fn key_at(&self, place: usize) -> Option<u64> {
        if place < self.count && place < MOST_SLOTS {
            Some(self.ascending[place])
        } else {
            None
        }
    }

    /// Returns whether a key is among these.
    pub fn has(&self, key: u64) -> bool {
        for place in 0..MOST_SLOTS {
            if self.key_at(place) == Some(key) {
                return true;
            }
        }
        false
    }

    /// Returns what is in a slot, which is named by the number of its arrival.
    pub fn slot(&self, number: usize) -> Slot {
        let key = if number < MOST_SLOTS {
            self.by_slot[number]
        } else {
            None
        };
        match key {
            Some(key) => Slot::Key(key),
            None if number < self.used => Slot::Spent,
            None => Slot::Unused,
        }
    }
}

/// A child of a node.
#[derive(Clone, Copy)]
pub struct Child {
    /// Its number among the leaves, or the nodes, of the shape.
    pub number: u64,
    /// Where its middle is, in parts of the distance of two leaves.
    pub middle: u64,
}

/// The children of a node in the order of their keys. The last one is the unbounded child.
#[derive(Clone, Copy)]
pub struct ChildRow {
    children: [Child; MOST_CHILDREN],
    count: usize,
}

impl ChildRow {
    /// Creates a row without a child.
    pub fn new() -> Self {
        let none = Child {
            number: 0,
            middle: 0,
        };
        ChildRow {
            children: [none; MOST_CHILDREN],
            count: 0,
        }
    }

    /// Adds a child after all others.
    pub fn push(&mut self, child: Child) {
        if self.count < MOST_CHILDREN {
            self.children[self.count] = child;
            self.count += 1;
        }
    }

    /// Returns how many children there are.
    pub fn count(&self) -> usize {
        self.count
    }

    /// Returns the child at a place, or `None` after the last one.
    pub fn child_at(&self, place: usize) -> Option<Child> {
        if place < self.count && place < MOST_CHILDREN {
            Some(self.children[place])
        } else {
            None
        }
    }

    /// Returns the middle between the first child and the last one, or 0 without a child.
    pub fn middle(&self) -> u64 {
        let first = self.middle_at(0);
        let last = self.middle_at(self.count.saturating_sub(1));
        first.saturating_add(last) / 2
    }

    // Returns the middle of the child at a place.
    fn middle_at(&self, place: usize) -> u64 {
        match self.child_at(place) {
            Some(child) => child.middle,
            None => 0,
        }
    }
}
