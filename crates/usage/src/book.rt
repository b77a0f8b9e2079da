//! The offers of an order book: the quantity at each price.
ghost use Rattle.std.specs.Prelude.{◌≡◌, slice_get};
ghost use Rattle.std.specs.Option.{option_map};
ghost use Rattle.std.specs.Ordering.{nat_cmp};
ghost use Rattle.tree_leaf.specs.Walks.{first_of, last_of};
ghost use Rattle.tree_model.specs.Rest.{lent};
ghost use Rattle.tree_index.specs.Nearest.{at_or_above};
ghost use Rattle.tree_model.specs.Pairs.{cut};

use std::ops::Bound;
use tree_index::TreeIndex;

/// Returns the highest price that is bid, or `None` if there is no bid.
pub fn best_bid(bids: &TreeIndex<u64, u64>) -> Option<u64>
    ensures { result ≡ option_map (λ bid. bid.0) (last_of bids.now.pairs) }
{
    let (price, _) = bids.last()?;
    Some(*price)
}

/// Returns the lowest price that is asked, or `None` if there is no ask.
pub fn best_ask(asks: &TreeIndex<u64, u64>) -> Option<u64>
    ensures { result ≡ option_map (λ ask. ask.0) (first_of asks.now.pairs) }
{
    let (price, _) = asks.first()?;
    Some(*price)
}

/// Returns the second lowest price that is asked, or `None` if there are fewer than two asks.
pub fn second_ask(asks: &TreeIndex<u64, u64>) -> Option<u64>
    ensures { result ≡ option_map (λ ask. ask.0) (slice_get asks.now.pairs 1) }
{
    let mut left = asks.iter();
    left.next()?;
    let (price, _) = left.next()?;
    Some(*price)
}

/// Returns the lowest ask from a price on, or `None` if every ask is below it.
pub fn ask_from(asks: &TreeIndex<u64, u64>, price: u64) -> Option<(&u64, &u64)>
    ensures { lent result ≡ at_or_above nat_cmp asks.now.pairs price }
{
    asks.at_or_above(&price)
}

/// Cancels every offer from one price to another, both included.
pub fn cancel(offers: &mut TreeIndex<u64, u64>, low: u64, high: u64)
    ensures { offers.new.pairs ≡ cut nat_cmp offers.old.pairs (Bound.Included low) (Bound.Included high) }
{
    offers.remove_range_sync((Bound::Included(&low), Bound::Included(&high)));
}
