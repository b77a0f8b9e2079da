//! The depth of an index that runs ascending inserts.
use std::alloc::{AllocError, Global};
use std::process::Abort;
use test_support::refusals::succeeds;
use tree_index::{Command, Reply, TreeIndex};
use tree_state::run;

// An index of numbers that runs commands.
trait Runs {
    // Calls `run`.
    fn run(&mut self, commands: Vec<Command<u64, u64>>) -> Result<Vec<Reply<u64>>, AllocError>;

    // Returns the length and the depth.
    fn sizes(&self) -> (u64, usize);
}

impl Runs for TreeIndex<u64, u64> {
    fn run(&mut self, commands: Vec<Command<u64, u64>>) -> Result<Vec<Reply<u64>>, AllocError> {
        run(self, commands)
    }

    fn sizes(&self) -> (u64, usize) {
        (self.len() as u64, self.depth())
    }
}

// So many ascending inserts, and the depth then.
static DEPTHS: [(u64, usize); 9] = [
    (0, 0),
    (1, 1),
    (225, 1),
    (240, 1),
    (241, 2),
    (3615, 2),
    (3616, 3),
    (54_240, 3),
    (54_241, 4),
];

// Returns the inserts of the keys from the first to the last.
fn inserts(alloc: Global, first: u64, last: u64) -> Result<Vec<Command<u64, u64>>, AllocError> {
    let count = last.saturating_sub(first).saturating_add(1);
    let mut commands = Vec::with_capacity(alloc, count as usize)?;
    for key in first..=last {
        commands.push(Command::Insert(key, key))?;
    }
    Ok(commands)
}

// Runs the inserts of the keys from the first to the last.
fn run_inserts(
    alloc: Global,
    index: &mut impl Runs,
    first: u64,
    last: u64,
) -> Result<(), AllocError> {
    let replies = index.run(inserts(alloc, first, last)?)?;
    if replies.contains(&Reply::Refused) {
        return Err(AllocError);
    }
    Ok(())
}

// Runs as many inserts as a row has, after those of the row before it.
fn run_rows(rt: &impl Abort, alloc: Global, index: &mut impl Runs) -> Result<(), AllocError> {
    let mut stored: u64 = 0;
    for row in &DEPTHS {
        run_inserts(alloc, index, stored.saturating_add(1), row.0)?;
        stored = row.0;
        assert!(rt; index.sizes() == *row);
    }
    Ok(())
}

fn runs_ascending_inserts_steps(rt: &impl Abort, alloc: Global) -> Result<(), AllocError> {
    let mut index: TreeIndex<u64, u64> = TreeIndex::new(alloc);
    run_rows(rt, alloc, &mut index)
}

#[test]
fn runs_ascending_inserts(rt: HostRuntime) {
    assert!(rt; succeeds(rt.alloc(), || runs_ascending_inserts_steps(&rt, rt.alloc())));
}
