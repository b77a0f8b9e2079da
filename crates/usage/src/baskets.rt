//! Look-ups of all items of a basket.
ghost use Rattle.std.specs.Prelude.{◌≡◌, [], ◌∷◌, take, map, is_some, sum_by, IfSome, Some};
ghost use Rattle.std.specs.Cmp.Lexicographic.{slice_cmp};
ghost use Rattle.std.specs.Ordering.{nat_cmp};
ghost use Rattle.tree_batches.specs.Batches.{entries_for, values_for};
ghost use Rattle.usage.specs.Baskets.{are_all_true, or_nothing};

use tree_batches::{
    contains_each, contains_each_lent, peek_each, peek_each_lent, peek_entry_each,
    peek_entry_each_lent,
};
use tree_index::TreeIndex;
use tree_texts::Text;

/// Returns what the items of a basket cost. An item without a price costs nothing. Returns `None`
/// if the sum doesn't fit.
pub fn cost_of(prices: &TreeIndex<u64, u64>, basket: &[u64]) -> Option<u64>
    ensures { IfSome result (λ cost. cost ≡ sum_by or_nothing (values_for nat_cmp prices.now.pairs basket.now)) }
{
    let mut cost = 0u64;
    for price in peek_each(prices, basket) {
        cost = cost.checked_add(price.copied().unwrap_or(0))?;
    }
    Some(cost)
}

/// Returns whether each item of a basket is in stock.
pub fn has_all(stock: &TreeIndex<u64, u64>, basket: &[u64]) -> bool
    ensures { result ≡ are_all_true (map is_some (entries_for nat_cmp stock.now.pairs basket.now)) }
{
    for present in contains_each(stock, basket) {
        if !present {
            return false;
        }
    }
    true
}

/// Returns the offer of the first item of a basket, if there is one.
pub fn first_in(offers: &TreeIndex<u64, u64>, basket: &[u64]) -> Option<(u64, u64)>
    ensures { IfSome result
        (λ offer. take 1 (entries_for nat_cmp offers.now.pairs basket.now) ≡ Some offer ∷ []) }
{
    let (item, price) = peek_entry_each(offers, basket).next()??;
    Some((*item, *price))
}

/// Returns how often the words of a list were counted together. A word without a count counts
/// nothing. Returns `None` if the sum doesn't fit.
pub fn count_of_all(counts: &TreeIndex<Text, u64>, words: &[&str]) -> Option<u64>
    ensures { IfSome result (λ count. count ≡ sum_by or_nothing
        (values_for (slice_cmp nat_cmp) counts.now.pairs (map (λ word. word.now) words.now))) }
{
    let mut total = 0u64;
    for count in peek_each_lent(counts, words) {
        total = total.checked_add(count.copied().unwrap_or(0))?;
    }
    Some(total)
}

/// Returns whether each word of a list was counted.
pub fn are_counted(counts: &TreeIndex<Text, u64>, words: &[&str]) -> bool
    ensures { result ≡ are_all_true (map is_some
        (entries_for (slice_cmp nat_cmp) counts.now.pairs (map (λ word. word.now) words.now))) }
{
    for present in contains_each_lent(counts, words) {
        if !present {
            return false;
        }
    }
    true
}

/// Returns how often the first word of a list was counted, if it was.
pub fn count_of_first(counts: &TreeIndex<Text, u64>, words: &[&str]) -> Option<u64>
    ensures { IfSome result (λ count. take 1
        (values_for (slice_cmp nat_cmp) counts.now.pairs (map (λ word. word.now) words.now)) ≡ Some count ∷ []) }
{
    let (_, count) = peek_entry_each_lent(counts, words).next()??;
    Some(*count)
}
