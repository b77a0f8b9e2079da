//! The order book that README shows: the best bid and the best ask, and the asks that are left
//! after a cancel.
#![tactic(auto)]

use std::alloc::{AllocError, Global};
use std::io;
use std::ops::Bound;
use tree_index::TreeIndex;

// Returns the quantity at each price.
fn book_of(alloc: Global, orders: &[(u64, u64)]) -> Result<TreeIndex<u64, u64>, AllocError> {
    let mut book = TreeIndex::new(alloc);
    for (price, quantity) in orders {
        book.upsert_sync(*price, *quantity).map_err(|_| AllocError)?;
    }
    Ok(book)
}

fn main(rt: HostRuntime) -> io::Result<()> {
    let bids = book_of(rt.alloc(), &[(98, 4), (99, 2)])?;
    let mut asks = book_of(rt.alloc(), &[(101, 5), (102, 7), (104, 1), (107, 3)])?;
    if let (Some((bid, _)), Some((ask, _))) = (bids.last(), asks.first()) {
        println!(rt; "best bid {bid}, best ask {ask}")?;
    }
    asks.remove_range_sync((Bound::Included(&102), Bound::Excluded(&107)));
    for (price, quantity) in &asks {
        println!(rt; "{quantity} at {price}")?;
    }
    Ok(())
}
