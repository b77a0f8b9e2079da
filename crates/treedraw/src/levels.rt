//! How full the levels of a tree are, which is all that a picture shows of a large one.
use crate::rows::KeyRow;
use crate::shape::Shape;

/// The arrays of a level.
#[derive(Clone, Copy)]
pub struct Level {
    /// How many leaves or nodes there are.
    pub arrays: u64,
    /// How many keys they have.
    pub keys: u64,
    /// How many slots are spent.
    pub spent: u64,
    /// How many slots there are.
    pub slots: u64,
}

impl Level {
    // Counts the array of a leaf or a node.
    fn add(&mut self, keys: &KeyRow, slots: usize) {
        self.arrays = self.arrays.saturating_add(1);
        self.keys = self.keys.saturating_add(keys.count() as u64);
        self.spent = self.spent.saturating_add(keys.spent() as u64);
        self.slots = self.slots.saturating_add(slots as u64);
    }

    /// Returns how long a bar for so many of the slots is, if one for all of them is this long.
    pub fn length_of(&self, slots: u64, whole: u64) -> u64 {
        slots
            .saturating_mul(whole)
            .checked_div(self.slots)
            .unwrap_or(0)
    }
}

/// Returns how full a level is. Level 0 is that of the leaves.
pub fn level_of(shape: &Shape, level: usize) -> Level {
    let mut found = Level {
        arrays: 0,
        keys: 0,
        spent: 0,
        slots: 0,
    };
    if level == 0 {
        for leaf in &shape.leaves {
            found.add(&leaf.keys, shape.slots);
        }
    }
    for node in &shape.nodes {
        if node.level == level {
            found.add(&node.keys, shape.slots);
        }
    }
    found
}
