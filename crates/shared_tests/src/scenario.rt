//! Scenarios over a shared index, and the one place in which its five ledgers are named.
ghost use Rattle.std.specs.Prelude.{◌≡◌, ◌<◌};
ghost use Rattle.tree_state.specs.Ledgers.{IsBlankFor};

use crate::closing::{closes_with_all_passes, closes_without_calls, parts_while_a_pass_is_out};
use crate::races::Race;
use crate::threads::{run_race, run_small_race};
use std::alloc::{AllocError, Global};
use std::marker::Brand;
use std::process::Abort;
use std::sync::Wait;
use std::thread::Threads;
use std::time::Clock;
use tree_shared::{Blanks, Books, SharedOver};

// What a test does with a shared index.
#[derive(Clone, Copy)]
pub(crate) enum Scenario {
    NoWorker,
    PassAbsent,
    Parts,
    Threads(Race),
    SmallThreads(Race),
}

// Plays a scenario for so many workers, with ledgers of its own, and sees that it is answered as
// it should be.
pub(crate) fn play<R: Threads + Wait + Clock + Abort + Sync>(
    rt: &R,
    alloc: Global,
    workers: usize,
    scenario: Scenario,
) -> Result<(), AllocError>
    requires { workers < usize.MAX }
{
    let blanks = Blanks::new(workers);
    assert!(rt; is_answered::<Brand, R>(rt, alloc, workers, scenario, blanks,)?);
    Ok(())
}

// Whether a scenario is answered as it should be.
fn is_answered<B: Books + Send + Sync, R: Threads + Wait + Clock + Abort + Sync>(
    rt: &R,
    alloc: Global,
    workers: usize,
    scenario: Scenario,
    blanks: Blanks,
) -> Result<bool, AllocError>
    requires calls { IsBlankFor workers blanks.calls B.calls.name B.calls.parts }
    requires stored { IsBlankFor workers blanks.stored B.stored.name B.stored.parts }
    requires removed { IsBlankFor workers blanks.removed B.removed.name B.removed.parts }
    requires found { IsBlankFor workers blanks.found B.found.name B.found.parts }
    requires done { IsBlankFor workers blanks.done B.done.name B.done.parts }
{
    if let Scenario::SmallThreads(race) = scenario {
        let (shared, passes) = SharedOver::<u64, u64, B, 7>::new(alloc, workers, blanks)?;
        return run_small_race(rt, alloc, shared, passes, race);
    }
    let (shared, passes) = SharedOver::<u64, u64, B, 15>::new(alloc, workers, blanks)?;
    match scenario {
        Scenario::NoWorker => Ok(closes_without_calls(shared, passes)),
        Scenario::PassAbsent => closes_with_all_passes(rt, shared, passes),
        Scenario::Parts => parts_while_a_pass_is_out(rt, shared, passes),
        Scenario::Threads(race) => run_race(rt, alloc, shared, passes, race),
        Scenario::SmallThreads(_) => Ok(false),
    }
}
