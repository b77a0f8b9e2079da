//! Nearest pairs of many keys, and pairs that are stored many at once.
ghost use Rattle.std.specs.Prelude.{◌≡◌, MatchResult, map, is_some, sum_by, IfSome};
ghost use Rattle.std.specs.Ordering.{nat_cmp};
ghost use Rattle.tree_batches.specs.Writes.{StopsAt, StoresAll};
ghost use Rattle.tree_index.specs.Nearest.{at_or_above, at_or_below};
ghost use Rattle.usage.specs.Baskets.{are_all_true, key_or_nothing};

use tree_batches::{at_or_above_each, at_or_below_each, upsert_each};
use tree_index::TreeIndex;

/// Returns what the lowest ask from each of these prices on costs together. Returns `None` if every
/// ask is below one of the prices, or if the sum doesn't fit.
pub fn cost_from(asks: &TreeIndex<u64, u64>, prices: &[u64]) -> Option<u64>
    ensures { IfSome result (λ cost. cost ≡ sum_by key_or_nothing (map (at_or_above nat_cmp asks.now.pairs) prices.now)) }
{
    let mut cost = 0u64;
    for ask in at_or_above_each(asks, prices) {
        let (price, _) = ask?;
        cost = cost.checked_add(*price)?;
    }
    Some(cost)
}

/// Returns whether a sample was taken up to each of these times.
pub fn are_covered(samples: &TreeIndex<u64, u64>, times: &[u64]) -> bool
    ensures { result ≡ are_all_true (map is_some (map (at_or_below nat_cmp samples.now.pairs) times.now)) }
{
    for sample in at_or_below_each(samples, times) {
        if sample.is_none() {
            return false;
        }
    }
    true
}

/// Stores a batch of samples. Of two of one time the later one stays. Returns those that are left
/// if an allocation is refused.
pub fn store_each(
    samples: &mut TreeIndex<u64, u64>,
    batch: Vec<(u64, u64)>,
) -> Result<(), Vec<(u64, u64)>>
    ensures { MatchResult result (λ _. StoresAll nat_cmp samples.old batch.items samples.new)
        (λ left. StopsAt nat_cmp samples.old batch.items left.items samples.new.pairs) }
{
    upsert_each(samples, batch)
}
