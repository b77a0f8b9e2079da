//! An ordered index that answers as one strictly ascending list of pairs.
//!
//! A type of your own is a key once it has an `impl IndexKey`, whose one law states that a clone
//! compares equal to its source:
//!
//! ```
//! impl IndexKey for Price {
//!     ghost use Rattle.usage.specs.Price.{same_cents};
//!
//!     ghost clone_equal = { λ x y same. equal_numbers x.cents y.cents (same_cents x y same) };
//! }
//! ```
//!
//! A look-up by a [`Judge`] counts its comparisons, and so its caller can state a bound on them:
//!
//! ```
//! pub fn price_by<J: Judge<u64>>(prices: &TreeIndex<u64, u64>, judge: &mut J) -> Option<u64>
//!     ensures price { result ≡ option_map (λ pair. pair.1)
//!         (pair_at nat_cmp prices.now.pairs (J.key judge.old)) }
//!     ensures counted { J.count judge.new ≤ J.count judge.old + 4 * (prices.now.depth + 1) }
//! {
//!     let (_, price) = prices.peek_entry_by(judge)?;
//!     Some(*price)
//! }
//! ```
//!
//! Both are in the crate `usage` in full, where they are proved.
#![tactic(auto)]

mod changes;
mod collects;
mod copies;
mod cursors;
mod equality;
mod hash;
mod index;
mod into_iter;
mod nearest;
mod order;
mod peek_or_insert;
mod readers;
mod retain;
mod seek;
mod takes;

pub use collects::FromSortedError;
pub use index::{SmallTreeIndex, TreeIndex, TreeIndexOf};
pub use into_iter::{IntoIter, IntoIterOf};
pub use seek::Seeks;
pub use tree_array::array::{Judge, KeyJudge, Steps};
pub use tree_cursors::cursor::{Cursor, run_moves};
pub use tree_cursors::iter::{Iter, IterOf};
pub use tree_cursors::locate::Proximity;
pub use tree_cursors::range::{Range, RangeOf};
pub use tree_leaf::arena::NodeId;
pub use tree_model::{
    Answer, Command, IndexKey, InsertError, Move, ProximityOf, Record, Reply, SameClone,
};
pub use tree_node::node::{Arenas, ArenasOf};
pub use tree_views::keys::{Keys, KeysOf, Values, ValuesOf};
