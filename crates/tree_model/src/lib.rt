//! What an index means: a list of pairs in strictly ascending key order, the commands that it
//! answers, and the histories of its calls. What a cursor over it means: the list, two bounds and
//! two ends, its moves, and where a key is.
#![tactic(auto)]

mod bounds;
mod commands;
mod compound_keys;
mod keys;
pub mod laws;
mod moves;
mod proximity;
mod way;

pub use bounds::{is_above, is_below, meets, range_contains};
pub use commands::{Command, InsertError, Record, Reply};
pub use keys::{IndexKey, SameClone};
pub use moves::{Answer, Move};
pub use proximity::ProximityOf;
pub use way::{Backward, Direction, Forward, Way};
