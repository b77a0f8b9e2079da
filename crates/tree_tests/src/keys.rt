//! Key types of the tests' own.
ghost use Rattle.std.specs.Prelude.{◌≡◌};
ghost use Rattle.std.proofs.Common.{rules};
ghost use Rattle.std.specs.Cmp.{partial_order_from_own_ties};
ghost use Rattle.std.specs.Cmp.Rules.{comparing};
ghost use Rattle.std.specs.Ordering.{as_partial_cmp, nat_cmp, on};
ghost use Rattle.tree_model.specs.Keys.{equal_numbers};

use std::alloc::AllocError;
use std::cell::Cell;
use std::cmp::Ordering;
use tree_model::IndexKey;

/// A key that compares by its number alone.
#[derive(Clone, Debug, Drop)]
#[derive_where(PartialEq, Eq, PartialOrd, Ord)]
pub struct Tagged {
    pub number: u64,
    #[derive_where(skip(EqHashOrd))]
    pub tag: char,
}

impl IndexKey for Tagged {
    ghost clone_equal = { λ x y h. equal_numbers x.number y.number (Prim.search rules) };
}

/// A number that counts how often it is compared.
#[derive(Drop)]
#[derive_where(PartialEq, Eq)]
pub struct Asked<'c> {
    number: u64,
    #[derive_where(skip(EqHashOrd))]
    comparisons: &'c Cell<u64>,
}

impl<'c> Asked<'c> {
    // The key of a number, which counts its comparisons there.
    pub(crate) fn new(number: u64, comparisons: &'c Cell<u64>) -> Self {
        Asked {
            number,
            comparisons,
        }
    }
}

impl Ord for Asked<'_> {
    ghost cmp = { on (λ k. k.number) nat_cmp };

    ghost total = { Prim.search (comparing, rules) };

    ghost matches_partial_cmp = { Prim.search (comparing, rules) };

    ghost matches_eq = { Prim.search (comparing, rules) };

    fn cmp(&self, other: &Self) -> Ordering {
        self.comparisons
            .set(self.comparisons.get().saturating_add(1));
        self.number.cmp(&other.number)
    }
}

impl PartialOrd for Asked<'_> {
    ghost partial_cmp = { as_partial_cmp (on (λ k. k.number) nat_cmp) };

    ghost laws = { partial_order_from_own_ties (Prim.search (comparing, rules)) (Prim.search (comparing, rules)) };

    fn partial_cmp(&self, other: &Self) -> Option<Ordering> {
        Some(self.cmp(other))
    }
}

impl Clone for Asked<'_> {
    ghost is_clone = { λ key clone. clone.number ≡ key.number };

    fn clone(&self) -> Result<Self, AllocError> {
        Ok(Asked {
            number: self.number,
            comparisons: self.comparisons,
        })
    }
}

impl IndexKey for Asked<'_> {
    ghost clone_equal = { λ x y h. equal_numbers x.number y.number h };
}
