//! A value that counts its drops.
use std::cell::Cell;

// A number that adds one to a count when it is dropped.
pub(crate) struct Token<'c> {
    pub(crate) number: u64,
    drops: &'c Cell<u64>,
}

impl<'c> Token<'c> {
    pub(crate) fn new(number: u64, drops: &'c Cell<u64>) -> Self {
        Token { number, drops }
    }
}

impl Drop for Token<'_> {
    fn drop(self) {
        self.drops.set(self.drops.get().saturating_add(1));
        let Token {
            number: _,
            drops: _,
        } = self;
    }
}
