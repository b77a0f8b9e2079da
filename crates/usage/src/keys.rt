//! A key type of a caller's own.
ghost use Rattle.tree_model.specs.Keys.{equal_numbers};

use tree_index::IndexKey;

/// A price in cents. Prices are ordered by their cents.
#[derive(Clone, Copy, Debug, PartialEq, Eq, PartialOrd, Ord)]
pub struct Price {
    pub cents: u64,
}

impl IndexKey for Price {
    ghost use Rattle.usage.specs.Price.{same_cents};

    ghost clone_equal = { λ x y same. equal_numbers x.cents y.cents (same_cents x y same) };
}
