//! The program.
ghost use Rattle.std.specs.Prelude.{◌≡◌, true, false, IsTrue, MatchResult};
ghost use Rattle.sqlite_std_file.specs.File.{file_is_usable, IsFresh};
ghost use Rattle.storetool.specs.Failures.{status_of};
ghost use Rattle.store_pair.specs.Pair.{AreUsable};

use crate::dump::{dump, dump_json};
use crate::failure::Failure;
use crate::limited::file_limit;
use crate::load::load;
use crate::opening::{Placed, copied, files_of, opened};
use crate::place::{Pair, open_files};
use crate::serve::serve;
use crate::stat::stat;
use crate::task::{Policy, Task, task_of};
use crate::unsynced::Unsynced;
use crate::verify::{Progress, report};
use sqlite_disk::{Disk, Start};
use sqlite_std_file::{Unknown, Wary};
use store_log::LogError;
use tree_lines::write_whole;
use tree_store::Files;

const USAGE: &[u8] = b"usage: storetool FILE [--sync each|group|none] [--two-syncs], or storetool \
    FILE compact | dump [--json] | load | stat | verify\n";

/// Does what the words request, and returns the exit status. A failure is one line of the errors.
pub fn tool(rt: &HostRuntime, words: &[String]) -> u8 {
    let Some((path, task)) = task_of(words) else {
        let _ = write_whole(&mut rt.stderr(), USAGE);
        return 1;
    };
    let ended = run(rt, path, task);
    status_of(rt, path, ended)
}

// Returns the exit status of a task that ended like this, and writes a failure as one line.
fn status_of(rt: &HostRuntime, path: &str, ended: Result<(), Failure>) -> u8
    ensures { MatchResult ended (λ _. result ≡ 0) (λ failure. result ≡ status_of failure) }
{
    match ended {
        Ok(()) => 0,
        Err(failure) => tell(rt, path, failure),
    }
}

/// Writes a failure as one line, and returns its status.
pub fn tell(rt: &HostRuntime, path: &str, failure: Failure) -> u8
    ensures { result ≡ status_of failure }
{
    let _ = eprintln!(rt; "storetool: {path:?}: {failure}");
    failure.status()
}

// Does a task.
fn run(rt: &HostRuntime, path: &str, task: Task) -> Result<(), Failure> {
    match task {
        Task::Answer(policy, true) => answer(rt, open_files(rt, path, Wary, true)?, policy),
        Task::Answer(policy, false) => answer(rt, open_files(rt, path, Unknown, true)?, policy),
        Task::Load => {
            let files = files_of(open_files(rt, path, Unknown, true)?, file_limit(rt));
            let mut store = opened(rt.alloc(), files)?;
            load(rt.alloc(), &mut store, &mut rt.stdin())
        }
        Task::Compact => {
            let files = files_of(open_files(rt, path, Unknown, false)?, file_limit(rt));
            let mut store = opened(rt.alloc(), files)?;
            match store.compact(rt.alloc()) {
                Ok(()) => Ok(()),
                Err(error) => Err(Failure::Commit(error)),
            }
        }
        Task::Dump(_) | Task::Stat | Task::Verify => look(rt, path, task),
    }
}

// Does a task that changes no byte.
fn look(rt: &HostRuntime, path: &str, task: Task) -> Result<(), Failure> {
    let mut files = files_of(open_files(rt, path, Unknown, false)?, file_limit(rt));
    let (alloc, mut output) = (rt.alloc(), rt.stdout());
    if task == Task::Verify {
        let mut read = Progress::of_test();
        copied(rt, &mut files, &mut read)?;
        read.end(rt);
        return report(alloc, &read, &mut output);
    }
    let store = copied(rt, &mut files, &mut Progress::default())?;
    match task {
        Task::Dump(true) => dump_json(alloc, store.index(), &mut output),
        Task::Dump(false) => dump(alloc, store.index(), &mut output),
        _ => stat(alloc, &store, &mut output),
    }
}

// Answers the lines of the input.
fn answer<S: Start>(rt: &HostRuntime, pair: Pair<S>, policy: Policy) -> Result<(), Failure>
    requires log { IsTrue (file_is_usable S.Start pair.log) }
    requires db { IsTrue (file_is_usable S.Start pair.db) }
    requires fresh { IsFresh true pair.log × IsFresh false pair.db }
{
    let files = files_of(pair, file_limit(rt));
    if policy == Policy::Unsynced {
        return answer_unsynced(rt, files);
    }
    let mut store = opened(rt.alloc(), files)?;
    serve(
        rt.alloc(),
        &mut store,
        policy,
        &mut rt.stdin(),
        &mut rt.stdout(),
    )
}

// Answers the lines of the input without a sync, and syncs at the end of the input.
fn answer_unsynced<S: Start>(rt: &HostRuntime, files: Placed<S>) -> Result<(), Failure>
    requires { AreUsable (λ d. file_is_usable S.Start d.inner) files }
{
    let files = Files {
        first: Unsynced { inner: files.first },
        second: Unsynced {
            inner: files.second,
        },
    };
    let mut store = opened(rt.alloc(), files)?;
    let (mut input, mut output) = (rt.stdin(), rt.stdout());
    serve(
        rt.alloc(),
        &mut store,
        Policy::Unsynced,
        &mut input,
        &mut output,
    )?;
    let Files { first, second } = store.into_files();
    sync(first.inner)?;
    sync(second.inner)
}

// Syncs a file, unless a sync of it has failed.
fn sync<D: Disk + Drop>(mut file: D) -> Result<(), Failure> {
    if !file.may_be_used() {
        return Err(Failure::Commit(LogError::Stopped));
    }
    match file.sync() {
        Ok(()) => Ok(()),
        Err(error) => Err(Failure::Commit(LogError::Io(error))),
    }
}
