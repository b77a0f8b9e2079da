//! An ordered set that answers as one strictly ascending list of elements.
#![tactic(auto)]

mod ahead;
mod collects;
mod copies;
mod difference;
mod equality;
mod intersection;
mod into_iter;
mod nearest;
mod order;
mod prefixes;
mod range;
mod ranges;
mod relations;
mod set;
mod symmetric_difference;
mod takes;
mod union;

pub use collects::FromSortedError;
pub use difference::{Difference, DifferenceOver};
pub use intersection::{Intersection, IntersectionOver};
pub use into_iter::{IntoIter, IntoIterOf};
pub use range::{Range, RangeOf, RangeOver};
pub use set::{Iter, IterOf, SmallTreeSet, TreeSet, TreeSetOf};
pub use symmetric_difference::{SymmetricDifference, SymmetricDifferenceOver};
pub use union::{Union, UnionOver};
