//! A registry of names that threads share behind a lock.
ghost use Rattle.std.specs.Prelude.{◌≡◌, ◌≤◌, IsTrue, false, length};
ghost use Rattle.std.specs.Ordering.{nat_cmp};
ghost use Rattle.tree_model.specs.Pairs.{put};

use std::alloc::Global;
use std::sync::{Mutex, Wait};
use std::thread::{Threads, join};
use tree_index::TreeIndex;

/// The owner of each name, for at most `MOST` names.
#[derive(Drop)]
pub struct Registry<const MOST: usize> {
    pub owners: TreeIndex<u64, u64>,
    ghost few: { length owners.pairs ≤ MOST },
}

impl<const MOST: usize> Registry<MOST> {
    /// Creates an empty registry. Allocates nothing.
    pub fn new(alloc: Global) -> Self {
        Registry {
            owners: TreeIndex::new(alloc),
        }
    }

    /// Registers a name for an owner. Returns `false` if the registry is full, the name is taken or
    /// an allocation is refused; the owners are then as they were.
    pub fn register(&mut self, name: u64, owner: u64) -> bool
        ensures stored { IsTrue result → self.new.owners.pairs ≡ put nat_cmp self.old.owners.pairs name owner }
        ensures refused { result ≡ false → self.new.owners.pairs ≡ self.old.owners.pairs }
    {
        self.owners.len() < MOST && self.owners.insert_sync(name, owner).is_ok()
    }
}

/// Registers a name under the lock. Returns what [`Registry::register`] does.
pub fn register<R: Wait, const MOST: usize>(
    rt: &R,
    registry: &Mutex<Registry<MOST>>,
    name: u64,
    owner: u64,
) -> bool {
    registry.lock(rt).register(name, owner)
}

/// Returns the number of names, which is at most `MOST` whatever threads have registered.
pub fn names_registered<R: Wait, const MOST: usize>(
    rt: &R,
    registry: &Mutex<Registry<MOST>>,
) -> usize
    ensures { result ≤ MOST }
{
    registry.lock(rt).owners.len()
}

/// Lets two threads register a name, each for an owner of its own.
pub fn register_both<R: Threads + Wait + Sync, const MOST: usize>(
    rt: &R,
    registry: &Mutex<Registry<MOST>>,
    name: u64,
) {
    join(
        rt,
        || register(rt, registry, name, 1),
        || register(rt, registry, name, 2),
    );
}
