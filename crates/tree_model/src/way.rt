//! The two ways through an ordered list.
ghost use Rattle.std.specs.Prelude.{◌≡◌};

/// The way of a walk: on to larger keys, or back to smaller ones.
#[derive(Clone, Copy)]
pub enum Way {
    On,
    Back,
}

/// A way as a type, so that what walks either way is written once and compiled for each.
pub trait Direction: Drop {
    ghost use Rattle.tree_model.specs.declared.way.Way.{Way};

    ghost way: { Way };

    /// Returns the way.
    fn way() -> Way
        ensures { result ≡ way };
}

/// On to larger keys.
#[derive(Drop)]
pub struct Forward;

/// Back to smaller keys.
#[derive(Drop)]
pub struct Backward;

impl Direction for Forward {
    ghost use Rattle.tree_model.specs.declared.way.Way.TheVariants.{On};

    ghost way = { On };

    fn way() -> Way {
        Way::On
    }
}

impl Direction for Backward {
    ghost use Rattle.tree_model.specs.declared.way.Way.TheVariants.{Back};

    ghost way = { Back };

    fn way() -> Way {
        Way::Back
    }
}
