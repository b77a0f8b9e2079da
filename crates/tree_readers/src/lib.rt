//! An index that one thread changes while others read it, without a lock and without waiting.
//!
//! A [`WriterOf`] has two copies of an index. Readers read one while the writer changes the other,
//! and [`publish`](WriterOf::publish) shows them the changed one. So a reader sees the pairs after
//! all commands up to some call of `publish`, and after none that came later. What it sees the next
//! time is after at least these commands.
//!
//! Readers never wait. The writer does: `publish` returns once no reader reads the copy of the call
//! before. So a reader that stays inside, or whose thread doesn't run, stops the writer. Leave as
//! soon as what was looked up is copied.
//!
//! Each pair is stored twice, and each command is carried out twice, once on a clone of it.
#![tactic(auto)]

mod copy;
mod edits;
mod errors;
mod handle;
pub mod laws;
mod listing;
mod past;
mod queue;
mod reader;
mod rule;
mod writer;

pub use copy::CopyOf;
pub use errors::{EnterError, NoPlace};
pub use handle::{
    Enter, Guard, GuardOf, GuardOver, Handle, HandleOf, HandleOver, Leave, SmallGuard, SmallHandle,
};
pub use past::Past;
pub use reader::{
    Reader, ReaderOf, ReaderOver, Reading, ReadingOf, ReadingOver, SmallReader, SmallReading,
};
pub use rule::{Fronts, Known};
pub use writer::{SmallWriter, Writer, WriterOf, WriterOver};
