//! A law of histories, as the contract of a function that does nothing. A caller that reasons
//! about a history calls it to have the law.
ghost use Rattle.tree_model.specs.Laws.{ReplaysOnce};

use tree_index::SameClone;

/// A history replays to one list at most.
pub fn history_replays_once<K: Ord, V: SameClone>()
    ensures { ReplaysOnce K V K.cmp V.seen }
{}
