//! Walks over prices: a loop over all of them, a range from both ends and the nearest item.
ghost use Rattle.std.specs.Prelude.{◌≡◌, filter};
ghost use Rattle.std.specs.Option.{option_map};
ghost use Rattle.std.specs.Ordering.{nat_cmp};
ghost use Rattle.tree_model.specs.Pairs.{within};
ghost use Rattle.tree_model.specs.Rest.{lent};
ghost use Rattle.tree_index.specs.Nearest.{at_or_below};
ghost use Rattle.usage.specs.Walks.{AreEnds, highest};

use std::ops::Bound;
use tree_index::{ProximityOf, TreeIndex};

/// Returns the highest price, or 0 if there is none.
pub fn highest_price(prices: &TreeIndex<u64, u64>) -> u64
    ensures { result ≡ highest prices.now.pairs }
{
    let mut highest = 0;
    for (_, price) in prices {
        if *price > highest {
            highest = *price;
        }
    }
    highest
}

/// Returns the first and the last item within both bounds, or `None` if no item is.
pub fn ends_within(
    prices: &TreeIndex<u64, u64>,
    low: Bound<u64>,
    high: Bound<u64>,
) -> Option<(u64, u64)>
    ensures { AreEnds (filter (λ pair. within nat_cmp low high pair.0) prices.now.pairs) result }
{
    let mut offers = prices.range((low.as_ref(), high.as_ref()));
    let (first, _) = offers.next()?;
    match offers.next_back() {
        Some((last, _)) => Some((*first, *last)),
        None => Some((*first, *first)),
    }
}

/// Returns the price of the item, or that of the nearest smaller one.
pub fn price_at_or_below(prices: &TreeIndex<u64, u64>, item: u64) -> Option<u64>
    ensures { result ≡ option_map (λ pair. pair.1) (at_or_below nat_cmp prices.now.pairs item) }
{
    match prices.locate(&item) {
        ProximityOf::Exact(at) => price_of(at.get()),
        ProximityOf::Between(at) => price_of(at.get()),
        ProximityOf::Smaller(at) => price_of(at.get_back()),
        ProximityOf::Larger(_) => None,
        ProximityOf::Empty => None,
    }
}

// Returns the price of an offer, if there is one.
fn price_of(offer: Option<(&u64, &u64)>) -> Option<u64>
    ensures { result ≡ option_map (λ pair. pair.1) (lent offer.entry) }
{
    let (_, price) = offer?;
    Some(*price)
}
