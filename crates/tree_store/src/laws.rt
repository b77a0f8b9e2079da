//! A law of the definitions, as the contract of a function that does nothing. A caller that reasons
//! about files calls it to have the law.
ghost use Rattle.store_codec.specs.Records.{record_at};
ghost use Rattle.tree_store.specs.Laws.{StandOnce};

use store_codec::{Encode, StoreKey};

/// Files stand for one list of pairs at most, as keys and values are seen.
pub fn files_stand_for_one_list<K: StoreKey, V: Encode>()
    ensures { StandOnce K.cmp K.seen V.seen (record_at K.value_at V.value_at) }
{}
