//! Runs of a store.
ghost use Rattle.store_codec.specs.Records.{record_at};
ghost use Rattle.store_pair.specs.Pair.{AreClean, Held, MayHold};
ghost use Rattle.store_restart.specs.Fronts.{IsDurable, StandForFront};

use crate::Batch;
use crate::batch::{change_all, settle};
use sqlite_disk::Disk;
use std::alloc::Global;
use store_codec::{Encode, StoreKey};
use tree_store::TreeStore;

/// How far a run of batches came.
#[derive(Clone, Copy, Debug)]
pub struct Reached {
    /// How many batches were made.
    pub made: usize,
    /// How many of these are in a commit or a compaction that returned `Ok`.
    pub durable: usize,
}

/// Makes batches in a store, with a commit or a compaction after each. Returns how far it came.
///
/// Whatever a crash then leaves of the files stands for the pairs after a front of the batches, as
/// keys and values are seen. The front has each batch whose commit returned `Ok`, and none that was
/// not made. So it is of each disk that meets the contract of `Disk`, at whichever call it fails,
/// if the files are clean (`is_clean`): no wrong answer of a read was taken as true. A torn write
/// may leave any bytes, unless the disk says that it mixes (`is_mixing`).
///
/// A batch whose commit failed is in the next commit, unless the store is stopped. The run ends at
/// a change that cannot allocate.
pub fn leaves_a_front<K: StoreKey, V: Encode, D: Disk>(
    alloc: Global,
    store: &mut TreeStore<K, V, D>,
    batches: Vec<Batch<K, V>>,
) -> Reached
    // No call of the store has failed, and nothing is left to commit.
    requires { IsDurable K.cmp K.seen V.seen (record_at K.value_at V.value_at) (K.kind_number, V.kind_number) D.is_clean D.may_leave store.old }
    ensures left { AreClean D.is_clean store.new.saved.files → (left : Held) → MayHold D.may_leave store.new.saved.files left →
        StandForFront K.cmp K.seen V.seen (record_at K.value_at V.value_at) (K.kind_number, V.kind_number) result batches.items store.old.pairs left }
    ensures clean { AreClean D.is_clean store.new.saved.files → AreClean D.is_clean store.old.saved.files }
{
    let mut reached = Reached {
        made: 0,
        durable: 0,
    };
    for batch in batches {
        let Batch { changes, compacts } = batch;
        if change_all(store, changes).is_err() {
            return reached;
        }
        reached.made += 1;
        if settle(alloc, store, compacts) {
            reached.durable = reached.made;
        }
    }
    reached
}
