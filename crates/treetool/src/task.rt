//! What the arguments of the program request.
ghost use Rattle.std.specs.Prelude.{◌≡◌, ◌↔◌, IsTrue, map};
ghost use Rattle.std.specs.String.{string_bytes};
ghost use Rattle.treetool.specs.Tasks.{AsksFor, small_words};

use crate::storm::storm_of;

/// What the program does.
#[derive(Clone, Copy, Debug)]
pub enum Task {
    /// Without arguments: answers lines over an index with fifteen pairs a leaf.
    Lines,
    /// `--small`: answers lines over an index with seven pairs a leaf.
    SmallLines,
    /// `storm W N`: runs a storm of W workers and N pairs.
    Storm(usize, u64),
}

/// Returns what the arguments request, or `None` if the program doesn't do that.
pub fn task_of(arguments: &[String]) -> Option<Task>
    ensures { AsksFor (map string_bytes arguments.now) result }
{
    if arguments.is_empty() {
        return Some(Task::Lines);
    }
    if are_small(arguments) {
        return Some(Task::SmallLines);
    }
    let (workers, pairs) = storm_of(arguments)?;
    Some(Task::Storm(workers, pairs))
}

// Returns whether the arguments are the one word `--small`.
fn are_small(arguments: &[String]) -> bool
    ensures { IsTrue result ↔ (map string_bytes arguments.now ≡ small_words) }
{
    match arguments {
        [word] => word.as_str() == "--small",
        _ => false,
    }
}
