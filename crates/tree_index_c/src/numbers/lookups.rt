//! Look-ups in an index whose keys are numbers.
ghost use Rattle.std.specs.Prelude.{◌≡◌};
ghost use Rattle.std.specs.Option.{option_map};
ghost use Rattle.std.specs.Ordering.{nat_cmp};
ghost use Rattle.tree_leaf.specs.Walks.{first_of, last_of};
ghost use Rattle.tree_index.specs.Nearest.{at_or_above, at_or_below};
ghost use Rattle.tree_index_c.specs.Answers.{Says, Writes};
ghost use Rattle.tree_index_c.specs.Held.{AsksNumbers, UnlessNumbers, held};
ghost use Rattle.tree_index_c.specs.Pairs.{pair_of};
ghost use Rattle.tree_model.specs.Pairs.{IsAbsent, IsPresent, pair_at};

use crate::handle::Handle;
use crate::pair::{Pair, write_lent, write_value};
use crate::status::{MISFIT, NO, YES};
use std::alloc::Global;

/// Writes the value of a key. Answers `NO`, and writes nothing, if the key is absent. Runs in O(log
/// n).
#[unsafe(no_mangle)]
pub extern "C" fn tree_index_peek(
    alloc: Global,
    handle: &mut Handle,
    key: u64,
    value: &mut u64,
) -> i32
    ensures kept { held handle.new ≡ held handle.old }
    ensures told { AsksNumbers
        (λ index answer. Writes (option_map (λ pair. pair.1) (pair_at nat_cmp index.pairs key))
        answer value.old value.new) (held handle.old) result }
    ensures stays { UnlessNumbers (held handle.old) (value.new ≡ value.old) }
{
    let Some(store) = handle.take(alloc) else {
        return MISFIT;
    };
    let answer = match store.numbers() {
        Some(index) => write_value(index.peek(&key).copied(), value),
        None => MISFIT,
    };
    *handle = Handle::leading_to(store);
    answer
}

/// Answers whether a key is present. Runs in O(log n).
#[unsafe(no_mangle)]
pub extern "C" fn tree_index_contains(alloc: Global, handle: &mut Handle, key: u64) -> i32
    ensures kept { held handle.new ≡ held handle.old }
    ensures told { AsksNumbers
        (λ index answer. Says (IsPresent nat_cmp index.pairs key) (IsAbsent nat_cmp index.pairs key)
        answer) (held handle.old) result }
{
    let Some(store) = handle.take(alloc) else {
        return MISFIT;
    };
    let answer = match store.numbers() {
        Some(index) => { if index.contains(&key) { YES } else { NO } }
        None => MISFIT,
    };
    *handle = Handle::leading_to(store);
    answer
}

/// Writes the pair with the smallest key. Answers `NO`, and writes nothing, if there is no pair.
/// Runs in O(log n).
#[unsafe(no_mangle)]
pub extern "C" fn tree_index_first(alloc: Global, handle: &mut Handle, pair: &mut Pair) -> i32
    ensures kept { held handle.new ≡ held handle.old }
    ensures told { AsksNumbers
        (λ index answer. Writes (first_of index.pairs) answer (pair_of pair.old) (pair_of pair.new))
        (held handle.old) result }
    ensures stays { UnlessNumbers (held handle.old) (pair.new ≡ pair.old) }
{
    let Some(store) = handle.take(alloc) else {
        return MISFIT;
    };
    let answer = match store.numbers() {
        Some(index) => write_lent(index.first(), pair),
        None => MISFIT,
    };
    *handle = Handle::leading_to(store);
    answer
}

/// Writes the pair with the largest key. Answers `NO`, and writes nothing, if there is no pair.
/// Runs in O(log n).
#[unsafe(no_mangle)]
pub extern "C" fn tree_index_last(alloc: Global, handle: &mut Handle, pair: &mut Pair) -> i32
    ensures kept { held handle.new ≡ held handle.old }
    ensures told { AsksNumbers
        (λ index answer. Writes (last_of index.pairs) answer (pair_of pair.old) (pair_of pair.new))
        (held handle.old) result }
    ensures stays { UnlessNumbers (held handle.old) (pair.new ≡ pair.old) }
{
    let Some(store) = handle.take(alloc) else {
        return MISFIT;
    };
    let answer = match store.numbers() {
        Some(index) => write_lent(index.last(), pair),
        None => MISFIT,
    };
    *handle = Handle::leading_to(store);
    answer
}

/// Writes the pair with a key, or else the one with the next smaller key. Answers `NO`, and writes
/// nothing, if there is neither. Runs in O(log n).
#[unsafe(no_mangle)]
pub extern "C" fn tree_index_at_or_below(
    alloc: Global,
    handle: &mut Handle,
    key: u64,
    pair: &mut Pair,
) -> i32
    ensures kept { held handle.new ≡ held handle.old }
    ensures told { AsksNumbers
        (λ index answer. Writes (at_or_below nat_cmp index.pairs key) answer (pair_of pair.old)
        (pair_of pair.new)) (held handle.old) result }
    ensures stays { UnlessNumbers (held handle.old) (pair.new ≡ pair.old) }
{
    let Some(store) = handle.take(alloc) else {
        return MISFIT;
    };
    let answer = match store.numbers() {
        Some(index) => write_lent(index.at_or_below(&key), pair),
        None => MISFIT,
    };
    *handle = Handle::leading_to(store);
    answer
}

/// Writes the pair with a key, or else the one with the next larger key. Answers `NO`, and writes
/// nothing, if there is neither. Runs in O(log n).
#[unsafe(no_mangle)]
pub extern "C" fn tree_index_at_or_above(
    alloc: Global,
    handle: &mut Handle,
    key: u64,
    pair: &mut Pair,
) -> i32
    ensures kept { held handle.new ≡ held handle.old }
    ensures told { AsksNumbers
        (λ index answer. Writes (at_or_above nat_cmp index.pairs key) answer (pair_of pair.old)
        (pair_of pair.new)) (held handle.old) result }
    ensures stays { UnlessNumbers (held handle.old) (pair.new ≡ pair.old) }
{
    let Some(store) = handle.take(alloc) else {
        return MISFIT;
    };
    let answer = match store.numbers() {
        Some(index) => write_lent(index.at_or_above(&key), pair),
        None => MISFIT,
    };
    *handle = Handle::leading_to(store);
    answer
}
