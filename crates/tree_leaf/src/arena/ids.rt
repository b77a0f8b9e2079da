//! The numbers of leaves and nodes, each of a type of its own.
use std::marker::Model;

/// The number of a leaf in its arena, which contracts see as the number itself.
#[derive(Clone, Copy, Debug, PartialEq, Eq, Drop)]
pub struct LeafId(pub(crate) usize);

/// The number of a node in its arena, which contracts see as the number itself.
#[derive(Clone, Copy, Debug, PartialEq, Eq, Drop)]
pub struct NodeId(pub(crate) usize);

impl LeafId {
    /// Returns some number, which need not be in use.
    pub fn any() -> Self {
        LeafId(0)
    }
}

impl Model for LeafId {
    ghost use Rattle.std.specs.Prelude.{ℕ};

    ghost Value = { ℕ };

    ghost view = { λ id. id.0 };

    ghost inverse = { λ n. record { 0 = n } };
}

impl Model for NodeId {
    ghost use Rattle.std.specs.Prelude.{ℕ};

    ghost Value = { ℕ };

    ghost view = { λ id. id.0 };

    ghost inverse = { λ n. record { 0 = n } };
}
