//! Callers of the library and a key type of their own, as docs/USING.md shows them.
#![tactic(auto)]

ghost use Rattle.std.specs.Prelude.{◌≡◌, ◌+◌, ◌*◌, ◌≤◌, Some, IfSome, IfNone};
ghost use Rattle.std.specs.Option.{option_map};
ghost use Rattle.std.specs.Ordering.{nat_cmp};
ghost use Rattle.tree_model.specs.Pairs.{pair_at};

mod baskets;
mod batches;
mod book;
mod durable;
mod events;
mod examples;
mod fills;
mod guests;
mod holders;
mod keys;
mod records;
mod registry;
mod samples;
mod stock;
mod stores;
mod walks;

pub use baskets::{are_counted, cost_of, count_of_all, count_of_first, first_in, has_all};
pub use batches::{are_covered, cost_from, store_each};
pub use book::{ask_from, best_ask, best_bid, cancel, second_ask};
pub use durable::{open_store, save};
pub use events::{Stamp, last_before};
pub use examples::{
    add_all, add_each, are_apart, cut_out, first_within, gap_at, has_first, is_part, nearest,
    sorted, take_largest, take_out, take_smallest,
};
pub use fills::{fill, fill_bid, remove_filled, take_back};
pub use guests::{invitation, invite, next_to_ask};
pub use holders::{if_wanted, parts_of_market};
pub use keys::Price;
pub use records::{Refusal, close, deposit};
pub use registry::{Registry, names_registered, register, register_both};
pub use samples::{forget_before, snapshot, store_if_spare, store_spare};
pub use stock::{article_up_to, first_article, is_sold, pieces, sell_out, withdraw};
pub use stores::{archive, count_of, first_offer, open, store_all};
use tree_index::{InsertError, Judge, TreeIndex};
use tree_model::laws::edits_are_found;
pub use walks::{ends_within, highest_price, price_at_or_below};

/// Offers a price for an item. Returns the price that stands, which is the first one offered.
///
/// Returns `None` if the index could not allocate; the prices are then as they were.
pub fn offer(prices: &mut TreeIndex<u64, u64>, item: u64, price: u64) -> Option<u64>
    ensures stands { IfSome result
        (λ first. option_map (λ pair. pair.1) (pair_at nat_cmp prices.new.pairs item) ≡ Some first) }
    ensures refused { IfNone result ((prices.new.pairs ≡ prices.old.pairs) × (prices.old.spare ≡ 0)) }
{
    edits_are_found::<u64, u64>();
    match prices.insert_sync(item, price) {
        Ok(()) => Some(price),
        Err(InsertError::Duplicate(item, _)) => prices.peek(&item).copied(),
        Err(InsertError::OutOfMemory(_, _)) => None,
    }
}

/// Returns the price of the judge's item. The judge counts the comparisons: at most 4 * (depth +
/// 1).
pub fn price_by<J: Judge<u64>>(prices: &TreeIndex<u64, u64>, judge: &mut J) -> Option<u64>
    ensures price { result ≡ option_map (λ pair. pair.1)
        (pair_at nat_cmp prices.now.pairs (J.key judge.old)) }
    ensures counted { J.count judge.new ≤ J.count judge.old + 4 * (prices.now.depth + 1) }
{
    let (_, price) = prices.peek_entry_by(judge)?;
    Some(*price)
}
