//! Look-ups of many keys, several at a time.
//!
//! Out of cache a look-up spends its time on loads from memory, each of which waits for the one
//! before it. Keys that are known at once needn't wait for each other: [`peek_each`] takes eight of
//! them down the tree together, so the processor loads for all eight at the same time.
//!
//! The answers are those of single look-ups, one for each key, in the order of the keys. Nothing is
//! allocated.
#![tactic(auto)]

mod answers;
mod batch;
mod batched;
mod descent;
mod each;
mod filling;
mod lent;
mod nearest;
mod texts;
mod writes;

pub use answers::{Answers, AtOrAbove, AtOrBelow, Entries, Presence, Values};
pub use batch::Batch;
pub use batched::Batched;
pub use each::{
    AtOrAboveEachOf, AtOrBelowEachOf, ContainsEach, ContainsEachOf, EachOf, EachOver, EntryEach,
    EntryEachOf, PeekEach, PeekEachOf, at_or_above_each, at_or_below_each, contains_each,
    contains_each_lent, peek_each, peek_each_lent, peek_entry_each, peek_entry_each_lent,
};
pub use lent::Lent;
pub use writes::upsert_each;
