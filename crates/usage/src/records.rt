//! Balances by account: a value that changes, and a removal under a condition.
ghost use Rattle.std.specs.Prelude.{◌≡◌, ◌+◌, nat_eq, OnErr, OnOk};
ghost use Rattle.std.specs.Ordering.{nat_cmp};
ghost use Rattle.tree_model.specs.Edits.{RemovesIf};
ghost use Rattle.tree_model.specs.Pairs.{put};
ghost use Rattle.usage.specs.Records.{balance_of};

use tree_index::TreeIndex;

/// Why a deposit was refused.
#[derive(Debug, Drop)]
pub enum Refusal {
    TooMuch,
    OutOfMemory,
}

impl From<(u64, u64)> for Refusal {
    fn from(_pair: (u64, u64)) -> Refusal {
        Refusal::OutOfMemory
    }
}

/// Adds an amount to the balance of an account, which is 0 if there is none.
///
/// Returns `Err` if the sum is too large or an allocation is refused. The balances are then as they
/// were.
pub fn deposit(balances: &mut TreeIndex<u64, u64>, account: u64, amount: u64) -> Result<(), Refusal>
    ensures stored { OnOk result (balances.new.pairs ≡
        put nat_cmp balances.old.pairs account (balance_of balances.old.pairs account + amount)) }
    ensures refused { OnErr result (balances.new.pairs ≡ balances.old.pairs) }
{
    let old = balances.peek(&account).copied().unwrap_or(0);
    let balance = old.checked_add(amount).ok_or(Refusal::TooMuch)?;
    balances.upsert_sync(account, balance)?;
    Ok(())
}

/// Closes an account if its balance is 0. Returns whether it did.
pub fn close(balances: &mut TreeIndex<u64, u64>, account: u64) -> bool
    ensures { RemovesIf nat_cmp (λ balance said. said ≡ nat_eq balance 0)
        balances.old.pairs account result balances.new.pairs }
{
    balances.remove_if_sync(&account, |balance| *balance == 0)
}
