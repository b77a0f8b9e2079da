//! An index that several handles share, each in a thread of its own.
//!
//! No export may take a handle that another call has, and even a look-up takes the index out of its
//! handle and puts it back. So threads that read at once have a handle each, and these lead to one
//! index, which none of them changes.
ghost use Rattle.std.specs.Prelude.{◌≡◌, ◌⊎◌, Some};
ghost use Rattle.tree_index_c.specs.Frozen.{Freezes, OpensShared, SharesIfFrozen, Thaws};
ghost use Rattle.tree_index_c.specs.Held.{held};

use crate::handle::Handle;
use crate::status::{MISFIT, NO, NO_MEMORY, YES};
use crate::store::Store;
use std::alloc::{AllocError, Global};
use std::mem;
use std::sync::Arc;

/// Freezes the index of a handle: other handles can share it from now on, and it can't be changed.
/// Answers `MISFIT` if it is frozen. Calls that would change a frozen index answer `MISFIT`, and
/// all others answer as before. Runs in constant time. Allocates one block.
#[unsafe(no_mangle)]
pub extern "C" fn tree_index_freeze(alloc: Global, handle: &mut Handle) -> i32
    ensures { Freezes (held handle.old) result (held handle.new) }
{
    let Some(mut store) = handle.take(alloc) else {
        return MISFIT;
    };
    let answer = freeze(alloc, &mut store);
    *handle = Handle::leading_to(store);
    answer
}

/// Opens the closed handle `to` on the frozen index of `from`, without a copy. Another thread may
/// use it then while this one uses `from`. Answers `MISFIT` if the index isn't frozen. If an
/// allocation fails, `to` stays closed. The index is freed with the last handle that shares it.
/// Runs in constant time. Allocates one block.
#[unsafe(no_mangle)]
pub extern "C" fn tree_index_share(alloc: Global, from: &mut Handle, to: &mut Handle) -> i32
    ensures kept { held from.new ≡ held from.old }
    ensures opened { OpensShared (held from.old) (held to.old) result (held to.new) }
{
    if to.is_open {
        return MISFIT;
    }
    let Some(store) = from.take(alloc) else {
        return MISFIT;
    };
    let another = another(&store);
    *from = Handle::leading_to(store);
    match another {
        Ok(Some(another)) => to.open(alloc, another),
        Ok(None) => MISFIT,
        Err(_) => NO_MEMORY,
    }
}

/// Lets the frozen index of a handle be changed again. Answers `NO` if other handles share it: it
/// stays frozen then. Answers `MISFIT` if it isn't frozen. Runs in constant time. Allocates
/// nothing.
#[unsafe(no_mangle)]
pub extern "C" fn tree_index_thaw(alloc: Global, handle: &mut Handle) -> i32
    ensures { Thaws (held handle.old) result (held handle.new) }
{
    let Some(mut store) = handle.take(alloc) else {
        return MISFIT;
    };
    let answer = thaw(alloc, &mut store);
    *handle = Handle::leading_to(store);
    answer
}

fn freeze(alloc: Global, store: &mut Store) -> i32
    ensures { Freezes (Some store.old) result (Some store.new) }
{
    let (frozen, answer) = match mem::replace(store, Store::empty(alloc)) {
        Store::Numbers(index) => match Arc::new(alloc, index) {
            Ok(shared) => (Store::FrozenNumbers(shared), YES),
            Err(failed) => (Store::Numbers(failed.value), NO_MEMORY),
        },
        Store::Bytes(index) => match Arc::new(alloc, index) {
            Ok(shared) => (Store::FrozenBytes(shared), YES),
            Err(failed) => (Store::Bytes(failed.value), NO_MEMORY),
        },
        frozen => (frozen, MISFIT),
    };
    *store = frozen;
    answer
}

fn thaw(alloc: Global, store: &mut Store) -> i32
    ensures { Thaws (Some store.old) result (Some store.new) }
{
    let (thawed, answer) = match mem::replace(store, Store::empty(alloc)) {
        Store::FrozenNumbers(shared) => match Arc::try_unwrap(shared) {
            Ok(index) => (Store::Numbers(index), YES),
            Err(shared) => (Store::FrozenNumbers(shared), NO),
        },
        Store::FrozenBytes(shared) => match Arc::try_unwrap(shared) {
            Ok(index) => (Store::Bytes(index), YES),
            Err(shared) => (Store::FrozenBytes(shared), NO),
        },
        thawed => (thawed, MISFIT),
    };
    *store = thawed;
    answer
}

// Returns another store that shares a frozen index, or `None` if it isn't frozen.
fn another(store: &Store) -> Result<Option<Store>, AllocError>
    ensures { SharesIfFrozen store.now result }
{
    match store {
        Store::FrozenNumbers(shared) => Ok(Some(Store::FrozenNumbers(Arc::try_clone(shared)?))),
        Store::FrozenBytes(shared) => Ok(Some(Store::FrozenBytes(Arc::try_clone(shared)?))),
        Store::Numbers(_) | Store::Bytes(_) => Ok(None),
    }
}
