//! Random numbers, the same in each run.
ghost use Rattle.std.specs.Prelude.{◌<◌};

use std::alloc::{AllocError, Global};

/// A 64-bit xorshift generator. Every number but 0 comes once before any comes again.
#[derive(Drop)]
pub struct Chance(u64);

impl Chance {
    /// Creates the generator of a seed.
    pub fn new(seed: u64) -> Self {
        Chance(seed.wrapping_mul(0x9e37_79b9_7f4a_7c15) | 1)
    }

    /// Returns the next number.
    pub fn draw(&mut self) -> u64 {
        self.0 ^= self.0 << 13;
        self.0 ^= self.0 >> 7;
        self.0 ^= self.0 << 17;
        self.0
    }

    /// Returns the next number below this bound.
    pub fn below(&mut self, bound: u64) -> u64
        requires { 0 < bound }
        ensures { result < bound }
    {
        self.draw() % bound
    }

    /// Returns the next `count` numbers.
    pub fn list(&mut self, alloc: Global, count: usize) -> Result<Vec<u64>, AllocError> {
        let mut numbers = Vec::with_capacity(alloc, count)?;
        for _ in 0..count {
            numbers.push(self.draw())?;
        }
        Ok(numbers)
    }

    /// Shuffles a list.
    pub fn shuffle<T>(&mut self, items: &mut [T]) {
        for place in 1..items.len() {
            let other = self.below(place as u64 + 1);
            items.swap(place, other as usize);
        }
    }
}
