//! Copies of an index.
ghost use Rattle.std.specs.Prelude.{◌≡◌, IfOk};
ghost use Rattle.tree_index_c.specs.Held.{Copies, SamePairs, held};

use crate::handle::Handle;
use crate::status::{MISFIT, NO_MEMORY};
use crate::store::Store;
use std::alloc::{AllocError, Global};

/// Opens the closed handle `to` on a copy of the index of `from`, which isn't frozen even if that
/// one is. If an allocation fails, `to` stays closed. Runs in O(n).
#[unsafe(no_mangle)]
pub extern "C" fn tree_index_copy(alloc: Global, from: &mut Handle, to: &mut Handle) -> i32
    ensures kept { held from.new ≡ held from.old }
    ensures copied { Copies (held from.old) (held to.old) result (held to.new) }
{
    if to.is_open {
        return MISFIT;
    }
    let Some(store) = from.take(alloc) else {
        return MISFIT;
    };
    let copy = copy_of(alloc, &store);
    *from = Handle::leading_to(store);
    match copy {
        Ok(copy) => to.open(alloc, copy),
        Err(_) => NO_MEMORY,
    }
}

fn copy_of(alloc: Global, store: &Store) -> Result<Store, AllocError>
    ensures { IfOk result (λ copy. SamePairs store.now copy) }
{
    match store {
        Store::Numbers(index) => Ok(Store::Numbers(index.try_clone(alloc)?)),
        Store::Bytes(index) => Ok(Store::Bytes(index.try_clone(alloc)?)),
        Store::FrozenNumbers(index) => Ok(Store::Numbers(index.try_clone(alloc)?)),
        Store::FrozenBytes(index) => Ok(Store::Bytes(index.try_clone(alloc)?)),
    }
}
