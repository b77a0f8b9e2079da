//! Two threads that claim numbers in one shared index.
ghost use Rattle.std.specs.Prelude.{◌≡◌, ◌+◌, ◌≤◌, IfOk, length};
ghost use Rattle.std.specs.Ordering.{nat_cmp};
ghost use Rattle.tree_model.specs.History.{IsHistoryOf};
ghost use Rattle.tree_state.specs.Ledgers.{IsBlankFor};
ghost use Rattle.tree_state.specs.Tallies.{none, plus, tally, tally_of};

use std::alloc::{AllocError, Global};
use std::marker::Brand;
use std::sync::Wait;
use std::sync::ledger::Ledger;
use std::thread::{Threads, join};
use tree_shared::{Blanks, Closed, Pass, SharedTreeIndex, Tally};

/// A ledger that threads share.
pub trait Shared: Ledger + Send + Sync {}

impl Shared for Brand {}

/// What came of the claims of two threads.
#[derive(Drop)]
pub struct Claims {
    /// The claimed numbers with their owners, the history of the calls, and its tally.
    pub closed: Closed<u64, u64>,
    /// What the calls of each thread came to.
    pub told: (Tally, Tally),
}

// Claims each number for the owner, unless it is claimed already. A claim that cannot allocate is
// left.
fn claim<C: Ledger, S: Ledger, M: Ledger, F: Ledger, D: Ledger, R: Wait>(
    rt: &R,
    owners: &SharedTreeIndex<u64, u64, C, S, M, F, D>,
    pass: &mut Pass<C, S, M, F, D>,
    owner: u64,
    numbers: &[u64],
)
    requires { pass.old ≡ none }
    ensures calls { pass.new.calls ≤ length numbers.now }
    ensures claims { pass.new ≡ tally_of pass.new.calls pass.new.stored 0 0 0 }
{
    for number in numbers {
        let _ = owners.insert(rt, pass, *number, owner);
    }
}

/// Lets two threads claim the same numbers, one for owner 1 and one for owner 2.
pub fn claim_both<C: Shared, S: Shared, M: Shared, F: Shared, D: Shared, R: Threads + Wait + Sync>(
    rt: &R,
    alloc: Global,
    numbers: &[u64],
    blanks: Blanks,
) -> Result<Claims, AllocError>
    requires calls { IsBlankFor 2 blanks.calls C.name C.parts }
    requires stored { IsBlankFor 2 blanks.stored S.name S.parts }
    requires removed { IsBlankFor 2 blanks.removed M.name M.parts }
    requires found { IsBlankFor 2 blanks.found F.name F.parts }
    requires done { IsBlankFor 2 blanks.done D.name D.parts }
    ensures replays { IfOk result
        (λ claims. IsHistoryOf nat_cmp (λ n. n) (λ n. n) claims.closed.history.items claims.closed.index.pairs) }
    ensures told { IfOk result (λ claims. (claims.closed.tally ≡ tally claims.closed.history.items)
        × (claims.closed.tally ≡ plus claims.told.0 claims.told.1)) }
    ensures owned { IfOk result
        (λ claims. length claims.closed.index.pairs ≤ claims.told.0.stored + claims.told.1.stored) }
{
    let (held, mut passes) = SharedTreeIndex::<u64, u64, C, S, M, F, D>::new(alloc, 2, blanks)?;
    let [one, two] = passes.as_mut_slice() else {
        unreachable!()
    };
    join(
        rt,
        ||
            requires { one.now ≡ none }
        { claim(rt, &held, one, 1, numbers) },
        ||
            requires { two.now ≡ none }
        { claim(rt, &held, two, 2, numbers) },
    );
    let told = (passes[0].tally(), passes[1].tally());
    match held.close(passes) {
        Ok(closed) => Ok(Claims { closed, told }),
        Err(_) => unreachable!(),
    }
}

/// Lets two threads claim the same numbers, one for owner 1 and one for owner 2. A number goes to
/// the owner whose claim comes first. A claim that cannot allocate is left.
///
/// Returns `Err` if the index cannot allocate its passes.
pub fn claimed_by_two<R: Threads + Wait + Sync>(
    rt: &R,
    alloc: Global,
    numbers: &[u64],
) -> Result<Claims, AllocError>
    ensures replays { IfOk result
        (λ claims. IsHistoryOf nat_cmp (λ n. n) (λ n. n) claims.closed.history.items claims.closed.index.pairs) }
    ensures told { IfOk result (λ claims. (claims.closed.tally ≡ tally claims.closed.history.items)
        × (claims.closed.tally ≡ plus claims.told.0 claims.told.1)) }
    ensures owned { IfOk result
        (λ claims. length claims.closed.index.pairs ≤ claims.told.0.stored + claims.told.1.stored) }
{
    claim_both::<Brand, Brand, Brand, Brand, Brand, R>(rt, alloc, numbers, Blanks::new(2))
}
