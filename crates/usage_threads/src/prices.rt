//! Prices that several threads quote behind one lock, and that any number of threads read without
//! it. Who quotes a price gets a receipt: a reader that sees it.
ghost use Rattle.std.specs.Prelude.{◌≡◌, ℕ, List, IfOk};
ghost use Rattle.std.specs.Option.{option_map};
ghost use Rattle.std.specs.Ordering.{nat_cmp};
ghost use Rattle.tree_model.specs.Pairs.{pair_at};
ghost use Rattle.tree_model.specs.declared.commands.Command.{Command};
ghost use Rattle.tree_model.specs.declared.commands.Command.TheVariants.{Upsert};
ghost use Rattle.tree_readers.specs.Fronts.{after};
ghost use Rattle.tree_readers.specs.Knowns.{BeginsWithAll};
ghost use Rattle.usage_threads.specs.Receipts.{IsReceipt};

use crate::trouble::Trouble;
use std::sync::{Mutex, Wait};
use tree_readers::laws::front_of_numbers;
use tree_readers::{Reader, Writer};

/// Quotes the price of an item, and shows it to every reader. Returns its receipt: a reader that
/// sees the price, or what was quoted after it.
pub fn quote<R: Wait + Drop, W: Wait>(
    rt: &W,
    prices: &Mutex<Writer<u64, u64, R>>,
    item: u64,
    price: u64,
) -> Result<Reader<u64, u64>, Trouble>
    ensures { IfOk result (IsReceipt (Upsert item price)) }
{
    let mut guard = prices.lock(rt);
    quote_alone(&mut *guard, item, price)
}

// Quotes a price by the writer itself.
fn quote_alone<R: Wait + Drop>(
    writer: &mut Writer<u64, u64, R>,
    item: u64,
    price: u64,
) -> Result<Reader<u64, u64>, Trouble>
    ensures { IfOk result (IsReceipt (Upsert item price)) }
{
    writer.upsert(item, price)?;
    writer.publish()?;
    let receipt = writer.reader()?;
    Ok(receipt)
}

/// Returns the price of an item after all commands that were published by some moment. They begin
/// with all that the reader knows of, and so with the command that it is the receipt of.
///
/// Returns `Err` with the reader if the writer was closed.
pub fn price_of(reader: Reader<u64, u64>, item: u64) -> Result<Option<u64>, Reader<u64, u64>>
    ensures { IfOk result (λ price. (commands : List (Command ℕ ℕ)) × BeginsWithAll commands reader
        × (price ≡ option_map (λ pair. pair.1) (pair_at nat_cmp (after nat_cmp commands) item))) }
{
    front_of_numbers();
    let reading = reader.enter()?;
    let price = reading.index().peek(&item).copied();
    Ok(price)
}

/// Quotes the prices from 1 to the last one of an item, and reads each by its receipt. Returns the
/// last price read.
pub fn quote_and_read<R: Wait + Drop, W: Wait>(
    rt: &W,
    prices: &Mutex<Writer<u64, u64, R>>,
    item: u64,
    last: u64,
) -> Result<Option<u64>, Trouble> {
    let mut read = None;
    for price in 0..last {
        let receipt = quote(rt, prices, item, price + 1)?;
        read = price_of(receipt, item).unwrap_or(None);
    }
    Ok(read)
}

/// Creates a reader.
pub fn reader_of<R: Wait + Drop, W: Wait>(
    rt: &W,
    prices: &Mutex<Writer<u64, u64, R>>,
) -> Result<Reader<u64, u64>, Trouble> {
    let mut guard = prices.lock(rt);
    let reader = guard.reader()?;
    Ok(reader)
}

/// Ends the quotes. Returns how many prices there are.
pub fn close<R: Wait + Drop>(prices: Mutex<Writer<u64, u64, R>>) -> usize {
    let writer = prices.into_inner();
    let index = writer.close();
    index.len()
}
