//! Pairs that are stored where their keys are absent, many at once, or found by a text that is
//! lent.
ghost use Rattle.std.specs.Prelude.{◌≡◌, ◌↔◌, IsTrue, Some, IfOk, OnOk, OnErr, unwrap_or};
ghost use Rattle.std.specs.Cmp.Lexicographic.{slice_cmp};
ghost use Rattle.std.specs.Option.{option_map};
ghost use Rattle.std.specs.Ordering.{nat_cmp};
ghost use Rattle.tree_index.specs.Collects.{BuildsSorted, puts};
ghost use Rattle.tree_model.specs.Pairs.{IsAbsent, pair_at};

use std::alloc::{AllocError, Global};
use tree_index::{FromSortedError, InsertError, TreeIndex};
use tree_model::laws::edits_are_found;
use tree_texts::{Text, peek_text};

/// Returns the first price that was offered for an item, which is this one if there was none.
pub fn first_offer(
    prices: &mut TreeIndex<u64, u64>,
    item: u64,
    price: u64,
) -> Result<u64, AllocError>
    ensures stands { IfOk result
        (λ first. option_map (λ pair. pair.1) (pair_at nat_cmp prices.new.pairs item) ≡ Some first) }
    ensures refused { OnErr result (prices.new.pairs ≡ prices.old.pairs) }
{
    edits_are_found::<u64, u64>();
    let first = prices.peek_or_insert(item, price)?;
    Ok(*first)
}

/// Opens an account with a balance of 0. Returns whether it is new.
pub fn open(balances: &mut TreeIndex<u64, u64>, account: u64) -> Result<bool, AllocError>
    ensures { IfOk result (λ new. IsTrue new ↔ IsAbsent nat_cmp balances.old.pairs account) }
{
    match balances.insert_sync(account, 0) {
        Ok(()) => Ok(true),
        Err(InsertError::Duplicate(_, _)) => Ok(false),
        Err(InsertError::OutOfMemory(_, _)) => Err(AllocError),
    }
}

/// Stores a batch of samples. Of two of one time the later one stays.
pub fn store_all(
    samples: &mut TreeIndex<u64, u64>,
    batch: Vec<(u64, u64)>,
) -> Result<(), AllocError>
    ensures { OnOk result (samples.new.pairs ≡ puts nat_cmp samples.old.pairs batch.items) }
{
    samples.extend(batch)
}

/// Returns an index of samples that were taken one after another.
pub fn archive(
    alloc: Global,
    samples: Vec<(u64, u64)>,
) -> Result<TreeIndex<u64, u64>, FromSortedError<u64, u64>>
    ensures { BuildsSorted nat_cmp samples.items result }
{
    TreeIndex::from_sorted(alloc, samples)
}

/// Returns how often a word was counted.
pub fn count_of(counts: &TreeIndex<Text, u64>, word: &str) -> u64
    ensures { result ≡ unwrap_or (option_map (λ pair. pair.1)
        (pair_at (slice_cmp nat_cmp) counts.now.pairs word.now)) 0 }
{
    match peek_text(counts, word) {
        Some((_, count)) => *count,
        None => 0,
    }
}
