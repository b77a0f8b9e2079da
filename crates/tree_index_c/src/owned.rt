//! A plain pointer that owns the index behind it.
ghost use Rattle.std.specs.Prelude.{◌≡◌, None, Option, Some, IsSome};
ghost use Rattle.tree_index_c.specs.Owned.{behind_coded, owns_behind};
ghost use Rattle.tree_index_c.specs.declared.store.Store.{Store};

use crate::detached::Detached;
use crate::store::Store;
use std::alloc::Global;
use std::marker::Model;
use std::ptr;

/// A pointer that owns the store behind it, or that is null. C sees an address.
#[repr(C)]
#[derive(Drop)]
pub struct OwnedPointer {
    at: *mut (),
    heap: Global,
    pub ghost behind: { Option Store } by { behind_coded },
}

impl Model for OwnedPointer {
    ghost also_owns = { λ pointer. owns_behind pointer.heap pointer.at pointer.behind };
}

impl OwnedPointer {
    /// Creates a null pointer, which owns nothing.
    pub fn null(heap: Global) -> Self
        ensures { result.behind ≡ None }
    {
        OwnedPointer {
            at: ptr::null_mut(),
            heap,
        }
    }

    /// Forgets what the pointer leads to, for C, and owns it as before.
    pub fn from_detached(store: Detached<Store, Global>) -> Self
        ensures { result.behind ≡ Some store.value }
    {
        let Detached { at, heap } = store;
        OwnedPointer {
            at: at as *mut (),
            heap,
        }
    }

    /// Recalls what the pointer leads to. The caller must see that it isn't null.
    pub fn into_detached(self) -> Detached<Store, Global>
        requires { IsSome self.behind }
        ensures { self.behind ≡ Some result.value }
    {
        let OwnedPointer { at, heap } = self;
        Detached {
            at: at as *mut Store,
            heap,
        }
    }
}

unsafe impl Send for OwnedPointer {}
