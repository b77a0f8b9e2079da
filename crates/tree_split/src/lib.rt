//! Room for one more pair in a full leaf, and for one more child in a full node: it gives its lower
//! part to a new leaf or node before it, or it is rebuilt.
//!
//! What both share: the result of a split, how children are divided, and what a packed tree is, one
//! that took its keys in ascending order.
#![tactic(auto)]

mod keyed_children;
mod leaf_split;
mod node_split;

pub use keyed_children::{parting_place, put_keyed};
pub use leaf_split::{empty_last, make_room};
pub use node_split::split_child;
