//! Writes to an index whose keys are numbers.
ghost use Rattle.std.specs.Prelude.{◌≡◌, ◌-◌, MatchOption, [], drop, length, take};
ghost use Rattle.std.specs.Option.{option_map};
ghost use Rattle.std.specs.Ordering.{nat_cmp};
ghost use Rattle.tree_leaf.specs.Walks.{first_of, last_of};
ghost use Rattle.tree_index.specs.Index.{with_value};
ghost use Rattle.tree_index_c.specs.Answers.{OpensNumbers, Replaces, Says, Stores, Writes};
ghost use Rattle.tree_index_c.specs.Held.{OnNumbers, UnlessOwnNumbers, held};
ghost use Rattle.tree_index_c.specs.Pairs.{pair_of};
ghost use Rattle.tree_model.specs.Pairs.{IsAbsent, IsPresent, pair_at, without};

use crate::handle::Handle;
use crate::pair::{Pair, write_pair, write_value};
use crate::status::{MISFIT, NO, NO_MEMORY, YES};
use crate::store::Store;
use std::alloc::Global;
use tree_index::{InsertError, TreeIndex};

/// Opens a closed handle on a new, empty index of numbers. Allocates one block.
#[unsafe(no_mangle)]
pub extern "C" fn tree_index_new(alloc: Global, handle: &mut Handle) -> i32
    ensures { OpensNumbers [] (held handle.old) result (held handle.new) }
{
    if handle.is_open {
        return MISFIT;
    }
    handle.open(alloc, Store::Numbers(TreeIndex::new(alloc)))
}

/// Stores a pair if its key is absent. Answers `NO`, and changes nothing, if it is present. Runs in
/// O(log n). Allocates at most a leaf, a node a level and a new root.
#[unsafe(no_mangle)]
pub extern "C" fn tree_index_insert(alloc: Global, handle: &mut Handle, key: u64, value: u64) -> i32
    ensures { OnNumbers (λ old. Stores nat_cmp (old.spare ≡ 0) key value old)
        (held handle.old) result (held handle.new) }
{
    let Some(mut store) = handle.take(alloc) else {
        return MISFIT;
    };
    let answer = match &mut *store {
        Store::Numbers(index) => match index.insert_sync(key, value) {
            Ok(()) => YES,
            Err(InsertError::Duplicate(_, _)) => NO,
            Err(InsertError::OutOfMemory(_, _)) => NO_MEMORY,
        },
        _ => MISFIT,
    };
    *handle = Handle::leading_to(store);
    answer
}

/// Stores a pair, in place of one with an equal key. Answers `YES` either way. Runs in O(log n).
/// Allocates at most a leaf, a node a level and a new root.
#[unsafe(no_mangle)]
pub extern "C" fn tree_index_upsert(alloc: Global, handle: &mut Handle, key: u64, value: u64) -> i32
    ensures { OnNumbers (λ old. Replaces nat_cmp (old.spare ≡ 0) key value old)
        (held handle.old) result (held handle.new) }
{
    let Some(mut store) = handle.take(alloc) else {
        return MISFIT;
    };
    let answer = match &mut *store {
        Store::Numbers(index) => match index.upsert_sync(key, value) {
            Ok(()) => YES,
            Err(_) => NO_MEMORY,
        },
        _ => MISFIT,
    };
    *handle = Handle::leading_to(store);
    answer
}

/// Swaps the value of a key with the one that is passed. Answers `NO`, and changes nothing, if the
/// key is absent. Runs in O(log n). Allocates nothing.
#[unsafe(no_mangle)]
pub extern "C" fn tree_index_replace(
    alloc: Global,
    handle: &mut Handle,
    key: u64,
    value: &mut u64,
) -> i32
    ensures done { OnNumbers
        (λ old answer new. MatchOption (pair_at nat_cmp old.pairs key)
        ((answer ≡ NO) × (value.new ≡ value.old) × (new ≡ old))
        (λ pair. (answer ≡ YES) × (value.new ≡ pair.1)
        × (new ≡ with_value nat_cmp old pair.0 value.old)))
        (held handle.old) result (held handle.new) }
    ensures stays { UnlessOwnNumbers (held handle.old) (value.new ≡ value.old) }
{
    let Some(mut store) = handle.take(alloc) else {
        return MISFIT;
    };
    let answer = match &mut *store {
        Store::Numbers(index) => match index.replace_sync(&key, *value) {
            Ok(old) => {
                *value = old;
                YES
            }
            Err(_) => NO,
        },
        _ => MISFIT,
    };
    *handle = Handle::leading_to(store);
    answer
}

/// Removes the pair with a key. Answers whether there was one. Runs in O(log n). Allocates nothing.
#[unsafe(no_mangle)]
pub extern "C" fn tree_index_remove(alloc: Global, handle: &mut Handle, key: u64) -> i32
    ensures { OnNumbers
        (λ old answer new. Says (IsPresent nat_cmp old.pairs key) (IsAbsent nat_cmp old.pairs key) answer
        × (new.pairs ≡ without nat_cmp old.pairs key)) (held handle.old) result (held handle.new) }
{
    let Some(mut store) = handle.take(alloc) else {
        return MISFIT;
    };
    let answer = match &mut *store {
        Store::Numbers(index) => { if index.remove_sync(&key) { YES } else { NO } }
        _ => MISFIT,
    };
    *handle = Handle::leading_to(store);
    answer
}

/// Removes the pair with a key and writes its value. Answers `NO`, and writes nothing, if the key
/// is absent. Runs in O(log n). Allocates nothing.
#[unsafe(no_mangle)]
pub extern "C" fn tree_index_take(
    alloc: Global,
    handle: &mut Handle,
    key: u64,
    value: &mut u64,
) -> i32
    ensures done { OnNumbers
        (λ old answer new. Writes
        (option_map (λ pair. pair.1) (pair_at nat_cmp old.pairs key)) answer value.old value.new
        × (new.pairs ≡ without nat_cmp old.pairs key)) (held handle.old) result (held handle.new) }
    ensures stays { UnlessOwnNumbers (held handle.old) (value.new ≡ value.old) }
{
    let Some(mut store) = handle.take(alloc) else {
        return MISFIT;
    };
    let answer = match &mut *store {
        Store::Numbers(index) => write_value(index.take_sync(&key).map(|(_, value)| value), value),
        _ => MISFIT,
    };
    *handle = Handle::leading_to(store);
    answer
}

/// Removes the pair with the smallest key and writes it. Answers `NO`, and writes nothing, if there
/// is none. Runs in O(log n). Allocates nothing.
#[tactic(auto, using(crate::proofs::Popped::first_popped))]
#[unsafe(no_mangle)]
pub extern "C" fn tree_index_pop_first(alloc: Global, handle: &mut Handle, pair: &mut Pair) -> i32
    ensures done { OnNumbers
        (λ old answer new. Writes (first_of old.pairs) answer (pair_of pair.old) (pair_of pair.new)
        × (new.pairs ≡ drop 1 old.pairs)) (held handle.old) result (held handle.new) }
    ensures stays { UnlessOwnNumbers (held handle.old) (pair.new ≡ pair.old) }
{
    let Some(mut store) = handle.take(alloc) else {
        return MISFIT;
    };
    let answer = match &mut *store {
        Store::Numbers(index) => write_pair(index.pop_first(), pair),
        _ => MISFIT,
    };
    *handle = Handle::leading_to(store);
    answer
}

/// Removes the pair with the largest key and writes it. Answers `NO`, and writes nothing, if there
/// is none. Runs in O(log n). Allocates nothing.
#[tactic(auto, using(crate::proofs::Popped::last_popped))]
#[unsafe(no_mangle)]
pub extern "C" fn tree_index_pop_last(alloc: Global, handle: &mut Handle, pair: &mut Pair) -> i32
    ensures done { OnNumbers
        (λ old answer new. Writes (last_of old.pairs) answer (pair_of pair.old) (pair_of pair.new)
        × (new.pairs ≡ take (length old.pairs - 1) old.pairs))
        (held handle.old) result (held handle.new) }
    ensures stays { UnlessOwnNumbers (held handle.old) (pair.new ≡ pair.old) }
{
    let Some(mut store) = handle.take(alloc) else {
        return MISFIT;
    };
    let answer = match &mut *store {
        Store::Numbers(index) => write_pair(index.pop_last(), pair),
        _ => MISFIT,
    };
    *handle = Handle::leading_to(store);
    answer
}
