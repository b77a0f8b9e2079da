//! A law of indexes of numbers, as the contract of a function that does nothing: call it where a
//! proof needs the law.
ghost use Rattle.tree_readers.specs.Fronts.{SameNumbers};

/// Pairs of numbers that are clones of others are these very pairs. So an index of numbers has the
/// pairs after the commands that its contract names.
///
/// ```
/// front_of_numbers();
/// ```
#[tactic(auto, using(crate::proofs::Growing::same_numbers))]
pub fn front_of_numbers()
    ensures { SameNumbers }
{}
