//! Threads that share an index.
use crate::closed::closed_with;
use crate::numbers::{are_answered, reply_to};
use crate::races::{Race, is_left};
use crate::scenario::{Scenario, play};
use std::alloc::{AllocError, Global};
use std::process::Abort;
use std::sync::Wait;
use std::sync::atomic::{AtomicU64, Ordering};
use std::thread;
use std::thread::Threads;
use std::time::{Clock, Duration};
use test_support::refusals::succeeds;
use tree_shared::{Books, PassOf, SharedOver};

// A thread's number and pass, and whether each of its calls was answered.
#[derive(Drop)]
struct Racer<B: Books> {
    number: u64,
    pass: PassOf<B>,
    served: bool,
}

impl<B: Books> Racer<B> {
    // Makes its calls.
    fn run<R: Wait + Abort, const LEN: usize>(
        mut self,
        rt: &R,
        shared: &SharedOver<u64, u64, B, LEN>,
        race: Race,
    ) -> Self {
        for made in 0..race.calls(self.number) {
            let call = race.call(self.number, made);
            self.served &= reply_to(rt, shared, &mut self.pass, &call).is_ok();
        }
        self
    }
}

// A racer for each pass, numbered from 0.
fn racers<B: Books>(alloc: Global, passes: Vec<PassOf<B>>) -> Result<Vec<Racer<B>>, AllocError> {
    let mut racers = Vec::with_capacity(alloc, passes.len())?;
    for pass in passes {
        let number = racers.len() as u64;
        racers.push(Racer {
            number,
            pass,
            served: true,
        })?;
    }
    Ok(racers)
}

// The passes of racers, and whether each call of each was answered.
fn passes_of<B: Books>(
    alloc: Global,
    racers: Vec<Racer<B>>,
    race: Race,
) -> Result<(Vec<PassOf<B>>, bool), AllocError> {
    let mut passes = Vec::with_capacity(alloc, racers.len())?;
    let mut served = true;
    for racer in racers {
        served &= racer.served && racer.pass.tally().calls == race.calls(racer.number);
        passes.push(racer.pass)?;
    }
    Ok((passes, served))
}

// What is added to the number of threads if one waited in vain.
const TOO_LATE: u64 = 1 << 32;

// Waits a while for as many threads as there are racers. Returns whether they all came: if a thread
// cannot be started or allocated, its racer comes once another has raced.
fn all_meet<R: Clock>(rt: &R, here: &AtomicU64, racers: u64) -> bool {
    here.fetch_add(1, Ordering::SeqCst);
    for _ in 0..3_000 {
        let came = here.load(Ordering::SeqCst);
        if came >= racers {
            return came < TOO_LATE;
        }
        thread::sleep(rt, Duration::from_millis(1));
    }
    here.fetch_add(TOO_LATE, Ordering::SeqCst);
    false
}

// Lets a thread for each pass make its calls, once all are there.
fn raced<B: Books + Send + Sync, R: Threads + Wait + Clock + Abort + Sync, const LEN: usize>(
    rt: &R,
    alloc: Global,
    shared: &SharedOver<u64, u64, B, LEN>,
    passes: Vec<PassOf<B>>,
    race: Race,
) -> Result<(Vec<PassOf<B>>, bool), AllocError> {
    let here = AtomicU64::new(0);
    let racers = thread::map_vec(
        rt,
        racers(alloc, passes)?,
        &|racer| {
            let mut racer = racer;
            racer.served = all_meet(rt, &here, race.racers() as u64);
            racer.run(rt, shared, race)
        },
    )?;
    passes_of(alloc, racers, race)
}

// Runs a race with these passes. Returns whether it leaves what it can, or `Err` if a call was
// refused.
pub(crate) fn run_race<B: Books + Send + Sync, R: Threads + Wait + Clock + Abort + Sync>(
    rt: &R,
    alloc: Global,
    shared: SharedOver<u64, u64, B, 15>,
    passes: Vec<PassOf<B>>,
    race: Race,
) -> Result<bool, AllocError> {
    let (mut passes, mut served) = raced(rt, alloc, &shared, passes, race)?;
    if let Some(pass) = passes.get_mut(0) {
        served &= are_answered(rt, &shared, pass, race.last_calls());
    }
    let Some(closed) = closed_with(shared, passes) else {
        return Ok(false);
    };
    is_left(alloc, &closed, race, served)
}

// The same over an index of seven pairs a leaf.
pub(crate) fn run_small_race<B: Books + Send + Sync, R: Threads + Wait + Clock + Abort + Sync>(
    rt: &R,
    alloc: Global,
    shared: SharedOver<u64, u64, B, 7>,
    passes: Vec<PassOf<B>>,
    race: Race,
) -> Result<bool, AllocError> {
    let (mut passes, mut served) = raced(rt, alloc, &shared, passes, race)?;
    if let Some(pass) = passes.get_mut(0) {
        served &= are_answered(rt, &shared, pass, race.last_calls());
    }
    let Ok(closed) = shared.close(passes) else {
        return Ok(false);
    };
    is_left(alloc, &closed, race, served)
}

// Plays a race, a second time if an allocation fails.
fn holds<R: Threads + Wait + Clock + Abort + Sync>(
    rt: &R,
    alloc: Global,
    race: Race,
    scenario: Scenario,
) -> bool {
    succeeds(alloc, || play(rt, alloc, race.racers(), scenario))
}

#[test]
fn two_threads_insert_the_same_keys(rt: HostRuntime) {
    let race = Race::Inserts;
    for scenario in [Scenario::Threads(race), Scenario::SmallThreads(race)] {
        assert!(rt; holds(&rt, rt.alloc(), race, scenario));
    }
}

#[test]
fn eight_threads_race(rt: HostRuntime) {
    assert!(rt; holds(&rt, rt.alloc(), Race::Edits, Scenario::Threads(Race::Edits)));
}

#[test]
fn a_range_is_removed_under_its_writers(rt: HostRuntime) {
    assert!(rt; holds(&rt, rt.alloc(), Race::Cuts, Scenario::Threads(Race::Cuts)));
}
