//! Keys and values that are moved from the slots that an order names into the first slots of other
//! rows.
ghost use Rattle.std.specs.Prelude.{◌≡◌, ℕ, ◌≢◌, ◌<◌, ◌≤◌, IsSome, None, slice_index_or};
ghost use Rattle.tree_cells.specs.Arrivals.{arrival};
ghost use Rattle.tree_cells.specs.Cells.{zipped, AreFilledAlike};
ghost use Rattle.tree_cells.specs.Moves.{HasInTurn, HasLeft};
ghost use Rattle.tree_cells.specs.Order.{named};

use crate::order::slot_at;
use tree_slots::row::Row;

// Moves the keys and the values of the places from `from` up to `end` into the first slots of other
// rows, in turn. Each of these places must name a key and a value, no two the same, and the other
// rows must hold none.
#[inline(always)]
pub(crate) fn gather<K, V, const LEN: usize>(
    keys: &mut Row<K, LEN>,
    vals: &mut Row<V, LEN>,
    order: u64,
    from: u8,
    end: u8,
    to_keys: &mut Row<K, LEN>,
    to_vals: &mut Row<V, LEN>,
)
    requires ends { from ≤ end }
    requires few { end ≤ LEN }
    requires places { end ≤ 15 }
    requires alike { AreFilledAlike keys.old.slots vals.old.slots }
    requires stand { (i : ℕ) → from ≤ i → i < end
        → IsSome (arrival (zipped keys.old.slots vals.old.slots) (named order i)) }
    requires apart { (i j : ℕ) → from ≤ i → i < j → j < end → named order i ≢ named order j }
    requires no_keys { (p : ℕ) → slice_index_or to_keys.old.slots p None ≡ None }
    requires no_vals { (p : ℕ) → slice_index_or to_vals.old.slots p None ≡ None }
    ensures turn { HasInTurn (zipped keys.old.slots vals.old.slots) (zipped to_keys.new.slots to_vals.new.slots)
        order from end }
    ensures left { HasLeft (zipped keys.old.slots vals.old.slots) (zipped keys.new.slots vals.new.slots)
        order from end }
    ensures alike { AreFilledAlike keys.new.slots vals.new.slots }
    ensures to_alike { AreFilledAlike to_keys.new.slots to_vals.new.slots }
{
    // The word is shifted by one place a step, so that no shift waits for the number of the place.
    let mut rest = order >> (4 * from);
    for place in from..end {
        let slot = slot_at(rest, 0) as usize;
        let to = (place - from) as usize;
        to_keys.put(to, keys.take(slot));
        to_vals.put(to, vals.take(slot));
        rest >>= 4;
    }
}
