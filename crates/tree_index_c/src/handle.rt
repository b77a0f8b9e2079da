//! What a C program holds of an index.
ghost use Rattle.std.specs.Prelude.{◌≡◌, ◌↔◌, IsSome, IsTrue, None, Some, MatchOption};
ghost use Rattle.tree_index_c.specs.Opened.{OpensOn};

use crate::detached::Detached;
use crate::owned::OwnedPointer;
use crate::status::{NO_MEMORY, YES};
use crate::store::Store;
use std::alloc::Global;
use std::mem;

/// What a C program holds of an index. A handle whose bytes are all zero is closed.
#[repr(C)]
#[derive(Drop)]
pub struct Handle {
    pub(crate) pointer: OwnedPointer,
    pub(crate) is_open: bool,
    ghost open: { IsTrue is_open ↔ IsSome pointer.behind },
}

impl Handle {
    /// Creates a closed handle.
    pub fn closed(alloc: Global) -> Handle
        ensures { result.pointer.behind ≡ None }
    {
        Handle {
            pointer: OwnedPointer::null(alloc),
            is_open: false,
        }
    }

    /// Creates a handle that leads to a store.
    pub fn leading_to(store: Box<Store>) -> Handle
        ensures { result.pointer.behind ≡ Some store.value }
    {
        Handle {
            pointer: OwnedPointer::from_detached(Detached::from_box(store)),
            is_open: true,
        }
    }

    /// Opens a closed handle on a store. Answers `NO_MEMORY` if an allocation fails, and the handle
    /// is closed then.
    pub fn open(&mut self, alloc: Global, store: Store) -> i32
        ensures { OpensOn store result self.new.pointer.behind }
    {
        match Box::new(alloc, store) {
            Ok(store) => {
                *self = Handle::leading_to(store);
                YES
            }
            Err(_) => {
                *self = Handle::closed(alloc);
                NO_MEMORY
            }
        }
    }

    /// Takes the store out and closes the handle.
    pub fn take(&mut self, alloc: Global) -> Option<Box<Store>>
        ensures taken { MatchOption result (self.old.pointer.behind ≡ None)
            (λ store. self.old.pointer.behind ≡ Some store.value) }
        ensures closed { self.new.pointer.behind ≡ None }
    {
        if !self.is_open {
            return None;
        }
        let Handle {
            pointer,
            is_open: _,
        } = mem::replace(self, Handle::closed(alloc));
        Some(pointer.into_detached().into_box())
    }
}
