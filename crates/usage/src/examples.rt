//! The calls of a set, as its documentation shows them.
ghost use Rattle.std.specs.Prelude.{◌≡◌, ◌↔◌, IsTrue, OnOk, filter};
ghost use Rattle.std.specs.Map.Iter.{TakesFirst, TakesLast};
ghost use Rattle.std.specs.Option.{option_copied};
ghost use Rattle.std.specs.Ordering.{nat_cmp};
ghost use Rattle.std.specs.declared.ops.Bound.TheVariants.{Excluded, Included};
ghost use Rattle.tree_leaf.specs.Walks.{first_of};
ghost use Rattle.tree_model.specs.Pairs.{within};
ghost use Rattle.tree_set.specs.Collects.{BuildsSorted, added_each};
ghost use Rattle.tree_set.specs.Merges.{AreDisjoint, IsSubset};
ghost use Rattle.tree_set.specs.Sets.{at_or_above, at_or_below, cut, element_at, without};

use std::alloc::{AllocError, Global};
use std::iter::Extend;
use tree_batches::contains_each;
use tree_index::ProximityOf;
use tree_set::{FromSortedError, TreeSet, TreeSetOf};

/// Takes a number out, and returns it.
pub fn take_out(numbers: &mut TreeSet<u64>, number: u64) -> Option<u64>
    ensures taken { result ≡ element_at nat_cmp numbers.old number }
    ensures left { numbers.new ≡ without nat_cmp numbers.old number }
{
    numbers.take(&number)
}

/// Takes out the smallest number.
pub fn take_smallest(numbers: &mut TreeSet<u64>) -> Option<u64>
    ensures { TakesFirst (λ number. number) numbers.old result numbers.new }
{
    numbers.pop_first()
}

/// Takes out the largest number.
pub fn take_largest(numbers: &mut TreeSet<u64>) -> Option<u64>
    ensures { TakesLast (λ number. number) numbers.old result numbers.new }
{
    numbers.pop_last()
}

/// Keeps the numbers below one of them, and from another one on.
pub fn cut_out(numbers: &mut TreeSet<u64>, low: u64, high: u64)
    ensures { numbers.new ≡ cut nat_cmp numbers.old (Included low) (Excluded high) }
{
    numbers.remove_range(low..high);
}

/// Returns the first number from one on and below another.
pub fn first_within(numbers: &TreeSet<u64>, low: u64, high: u64) -> Option<&u64>
    ensures { option_copied result ≡
        first_of (filter (within nat_cmp (Included low) (Excluded high)) numbers.now) }
{
    numbers.range(low..high).next()
}

/// Adds each number of a vector.
pub fn add_all(numbers: &mut TreeSet<u64>, more: Vec<u64>) -> Result<(), AllocError>
    ensures { OnOk result (numbers.new ≡ added_each nat_cmp numbers.old more.items) }
{
    numbers.extend(more)
}

/// Adds numbers up to the first one for which an allocation fails, which it returns.
pub fn add_each(numbers: &mut TreeSet<u64>, more: Vec<u64>) -> Result<(), u64> {
    numbers.try_extend(more)
}

/// Returns a set of the numbers of a list that ascends.
pub fn sorted(alloc: Global, list: Vec<u64>) -> Result<TreeSet<u64>, FromSortedError<u64>>
    ensures { BuildsSorted nat_cmp list.items result }
{
    TreeSetOf::from_sorted(alloc, list)
}

/// Returns the nearest numbers on both sides, or the number itself.
pub fn nearest(numbers: &TreeSet<u64>, number: u64) -> (Option<&u64>, Option<&u64>)
    ensures below { option_copied result.0 ≡ at_or_below nat_cmp numbers.now number }
    ensures above { option_copied result.1 ≡ at_or_above nat_cmp numbers.now number }
{
    (numbers.at_or_below(&number), numbers.at_or_above(&number))
}

/// Returns the numbers on both sides of one that isn't in the set.
pub fn gap_at(numbers: &TreeSet<u64>, number: u64) -> Option<(u64, u64)> {
    let ProximityOf::Between(at) = numbers.locate(&number) else {
        return None;
    };
    let ((below, _), (above, _)) = (at.get()?, at.get_back()?);
    Some((*below, *above))
}

/// Returns whether the first of a list of numbers is in a set, or `None` if the list is empty.
pub fn has_first(numbers: &TreeSet<u64>, others: &[u64]) -> Option<bool> {
    contains_each(numbers.as_index(), others).next()
}

/// Returns whether one set has each number of another, and the other way round.
pub fn is_part(numbers: &TreeSet<u64>, others: &TreeSet<u64>) -> (bool, bool)
    ensures subset { IsTrue result.0 ↔ IsSubset nat_cmp numbers.now others.now }
    ensures superset { IsTrue result.1 ↔ IsSubset nat_cmp others.now numbers.now }
{
    (numbers.is_subset(others), numbers.is_superset(others))
}

/// Returns whether two sets have no number in common.
pub fn are_apart(numbers: &TreeSet<u64>, others: &TreeSet<u64>) -> bool
    ensures { IsTrue result ↔ AreDisjoint nat_cmp numbers.now others.now }
{
    numbers.is_disjoint(others)
}
