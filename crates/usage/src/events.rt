//! Events in the order of their times: a key type of two fields.
ghost use Rattle.std.proofs.Common.{rules};
ghost use Rattle.std.specs.Prelude.{◌≡◌};
ghost use Rattle.std.specs.Option.{option_copied};
ghost use Rattle.tree_leaf.specs.Walks.{last_of};
ghost use Rattle.usage.specs.Events.{earlier};

use tree_index::IndexKey;
use tree_set::TreeSet;

/// When an event happened, and from which source it came. Stamps are ordered by their times, and
/// those of one time by their sources.
#[derive(Clone, Copy, Debug, PartialEq, Eq, PartialOrd, Ord)]
pub struct Stamp {
    pub time: u64,
    pub source: u32,
}

impl IndexKey for Stamp {
    ghost clone_equal = { Prim.search rules };
}

/// Returns the last event before a time, or `None` if there is none.
pub fn last_before(events: &TreeSet<Stamp>, time: u64) -> Option<&Stamp>
    ensures { option_copied result ≡ last_of (earlier time events.now) }
{
    events.range(..Stamp { time, source: 0 }).next_back()
}
