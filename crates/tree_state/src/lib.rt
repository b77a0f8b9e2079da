//! An ordered index that keeps the history of its calls, and lists of commands that one thread
//! answers in turn, also those of several workers.
//!
//! Each worker's [`PassOf`] counts the calls of the worker, and the [`BooksOf`] the index count
//! those of all. Once every pass is back, the passes' tallies add up to that of the books.
#![tactic(auto)]

mod blanks;
mod books;
mod commands;
mod counted_share;
mod counter;
pub mod laws;
mod ledgers;
mod pass;
mod prepared;
mod replies;
mod schedule;
mod state;
mod tally;

pub use blanks::Blanks;
pub use books::Books;
pub use commands::run;
pub use ledgers::{BooksOf, Ledgers, Workers};
pub use pass::{Pass, PassOf};
pub use prepared::PreparedPair;
pub use replies::{found_value, is_removed};
pub use schedule::run_schedule;
pub use state::{State, StateOf};
pub use tally::Tally;
