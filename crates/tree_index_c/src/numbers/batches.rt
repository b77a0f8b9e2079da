//! Look-ups of many keys in an index whose keys are numbers.
ghost use Rattle.std.specs.Prelude.{◌≡◌, ◌≤◌, ◌++◌, drop, length, map};
ghost use Rattle.std.specs.Option.{option_copied};
ghost use Rattle.std.specs.Ordering.{nat_cmp};
ghost use Rattle.tree_batches.specs.Batches.{values_for};
ghost use Rattle.tree_index_c.specs.Held.{AsksNumbers, UnlessNumbers, held};
ghost use Rattle.tree_index_c.specs.Many.{PeeksMany, flag_of, value_or_zero};

use crate::handle::Handle;
use crate::status::{MISFIT, NO_ROOM, YES};
use std::alloc::Global;
use tree_batches::peek_each;
use tree_index::TreeIndex;

/// Looks up each of `keys`, eight at a time. Writes the value of each to the same place of
/// `values`, and 1 to that of `found`. If a key is absent, it writes 0 to both. Answers `NO_ROOM`,
/// and writes nothing, if there are fewer places of either than keys. Makes the comparisons of a
/// single look-up for each key. Allocates nothing.
#[unsafe(no_mangle)]
pub extern "C" fn tree_index_peek_many(
    alloc: Global,
    handle: &mut Handle,
    keys: &[u64],
    values: &mut [u64],
    found: &mut [u8],
) -> i32
    ensures kept { held handle.new ≡ held handle.old }
    ensures told { AsksNumbers
        (λ index answer. PeeksMany (values_for nat_cmp index.pairs keys.now) answer values.old
        values.new found.old found.new) (held handle.old) result }
    ensures stays { UnlessNumbers (held handle.old)
        ((values.new ≡ values.old) × (found.new ≡ found.old)) }
{
    let Some(store) = handle.take(alloc) else {
        return MISFIT;
    };
    let answer = match store.numbers() {
        Some(index) => {
            if values.len() < keys.len() || found.len() < keys.len() {
                NO_ROOM
            } else {
                write_answers(index, keys, values, found);
                YES
            }
        }
        None => MISFIT,
    };
    *handle = Handle::leading_to(store);
    answer
}

// Writes the answers of single look-ups, one for each key.
fn write_answers(index: &TreeIndex<u64, u64>, keys: &[u64], values: &mut [u64], found: &mut [u8])
    requires values { length keys.now ≤ length values.old }
    requires found { length keys.now ≤ length found.old }
    ensures values { values.new ≡ map value_or_zero (values_for nat_cmp index.now.pairs keys.now)
        ++ drop (length keys.now) values.old }
    ensures found { found.new ≡ map flag_of (values_for nat_cmp index.now.pairs keys.now)
        ++ drop (length keys.now) found.old }
{
    let mut at = 0;
    for answer in peek_each(index, keys) {
        values[at] = answer.copied().unwrap_or(0);
        found[at] = flag_of(answer);
        at += 1;
    }
}

// Returns 1 if a look-up found a value, else 0.
fn flag_of(value: Option<&u64>) -> u8
    ensures { result ≡ flag_of (option_copied value.entry) }
{
    if value.is_some() { 1 } else { 0 }
}
