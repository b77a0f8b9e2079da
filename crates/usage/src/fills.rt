//! Offers that leave an order book: filled, or taken back.
ghost use Rattle.std.specs.Prelude.{◌≡◌};
ghost use Rattle.std.specs.Map.Iter.{TakesFirst, TakesLast};
ghost use Rattle.std.specs.Option.{option_map};
ghost use Rattle.std.specs.Ordering.{nat_cmp};
ghost use Rattle.tree_model.specs.Pairs.{pair_at, without};

use tree_index::TreeIndex;

/// Fills the lowest ask: removes it and returns its price and quantity, or `None` if there is no
/// ask.
pub fn fill(asks: &mut TreeIndex<u64, u64>) -> Option<(u64, u64)>
    ensures { TakesFirst (λ ask. ask) asks.old.pairs result asks.new.pairs }
{
    asks.pop_first()
}

/// Fills the highest bid: removes it and returns its price and quantity, or `None` if there is no
/// bid.
pub fn fill_bid(bids: &mut TreeIndex<u64, u64>) -> Option<(u64, u64)>
    ensures { TakesLast (λ bid. bid) bids.old.pairs result bids.new.pairs }
{
    bids.pop_last()
}

/// Removes each offer that has no quantity left.
pub fn remove_filled(offers: &mut TreeIndex<u64, u64>) {
    offers.retain_sync(|_, quantity| *quantity > 0);
}

/// Takes back the offer at a price, and returns its quantity, or `None` if there is none.
pub fn take_back(offers: &mut TreeIndex<u64, u64>, price: u64) -> Option<u64>
    ensures quantity { result ≡ option_map (λ offer. offer.1) (pair_at nat_cmp offers.old.pairs price) }
    ensures left { offers.new.pairs ≡ without nat_cmp offers.old.pairs price }
{
    let (_, quantity) = offers.take_sync(&price)?;
    Some(quantity)
}
