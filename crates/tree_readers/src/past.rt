//! A list that only clauses read.
ghost use Rattle.std.specs.Prelude.{◌≡◌, [], ◌∷◌, ◌++◌};

use std::marker::Model;
use std::mem;
use std::snapshot::Snapshot;

/// A list of what was done, for clauses alone. Only snapshots of it are kept, and these take no
/// bytes.
#[cycle(past)]
#[derive(Drop)]
pub struct Past<O: Drop> {
    link: Link<O>,
}

#[cycle(past)]
#[derive(Drop)]
enum Link<O: Drop> {
    Start,
    Then(Snapshot<Past<O>>, Snapshot<O>),
}

impl<O: Drop> Model for Past<O> {
    ghost use Rattle.std.specs.Prelude.{List, length};

    ghost Value = { List O };

    ghost use Rattle.tree_readers.specs.Pasts.{items};

    ghost view = { λ p. items p.link };

    ghost size = { length };

    ghost use Rattle.std.proofs.Common.{arith, length-append};

    ghost size_decreases = { λ a h. Prim.grind (arith, length-append) };
}

// Returns the empty list.
pub(crate) fn nothing<O: Drop>() -> Snapshot<Past<O>>
    ensures { result.value ≡ [] }
{
    Snapshot::of(&Past { link: Link::Start })
}

// Puts one more at the end.
pub(crate) fn add<O: Drop>(past: &mut Snapshot<Past<O>>, done: Snapshot<O>)
    ensures { past.new.value ≡ past.old.value ++ done.value ∷ [] }
{
    let before = mem::replace(past, nothing());
    *past = Snapshot::of(&Past {
        link: Link::Then(before, done),
    });
}
