//! The stock of a shop: how many pieces there are of each article.
ghost use Rattle.std.specs.Prelude.{◌≡◌, ◌↔◌, ◌^◌, ◌-◌, IsTrue, [], map, min};
ghost use Rattle.std.specs.List.{sum};
ghost use Rattle.std.specs.Ordering.{nat_cmp};
ghost use Rattle.tree_leaf.specs.Walks.{first_of};
ghost use Rattle.tree_model.specs.Rest.{lent};
ghost use Rattle.tree_index.specs.Nearest.{at_or_below};
ghost use Rattle.tree_model.specs.Pairs.{IsPresent, without};

use tree_index::TreeIndex;

/// Returns whether an article is sold here.
pub fn is_sold(stock: &TreeIndex<u64, u64>, article: u64) -> bool
    ensures { IsTrue result ↔ IsPresent nat_cmp stock.now.pairs article }
{
    stock.contains(&article)
}

/// Takes an article off the list. Returns whether it was on it.
pub fn withdraw(stock: &mut TreeIndex<u64, u64>, article: u64) -> bool
    ensures { stock.new.pairs ≡ without nat_cmp stock.old.pairs article }
{
    stock.remove_sync(&article)
}

/// Returns the nearest article up to a number, and how many pieces there are of it.
pub fn article_up_to(stock: &TreeIndex<u64, u64>, number: u64) -> Option<(&u64, &u64)>
    ensures { lent result ≡ at_or_below nat_cmp stock.now.pairs number }
{
    stock.at_or_below(&number)
}

/// Returns the article with the smallest number.
pub fn first_article(stock: &TreeIndex<u64, u64>) -> Option<u64>
    ensures { result ≡ first_of (map (λ pair. pair.0) stock.now.pairs) }
{
    stock.keys().next().copied()
}

/// Returns how many pieces there are in all, or `u64::MAX` if there are more.
pub fn pieces(stock: &TreeIndex<u64, u64>) -> u64
    ensures { result ≡ min (sum (map (λ pair. pair.1) stock.now.pairs)) (2 ^ 64 - 1) }
{
    let mut pieces: u64 = 0;
    for count in stock.values() {
        pieces = pieces.saturating_add(*count);
    }
    pieces
}

/// Sells out. Returns whether there was anything to sell.
pub fn sell_out(stock: &mut TreeIndex<u64, u64>) -> bool
    ensures { stock.new.pairs ≡ [] }
{
    let was_empty = stock.is_empty();
    stock.clear();
    !was_empty
}
