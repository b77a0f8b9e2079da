//! What the words of the command line request.
ghost use Rattle.std.specs.Prelude.{◌≡◌, ◌∷◌, ℕ, List, [], IfSome, map};
ghost use Rattle.std.specs.String.{string_bytes};
ghost use Rattle.storetool.specs.Tasks.{AskFor, policy_name};

/// When lines are committed.
#[derive(Clone, Copy, Debug, PartialEq, Eq)]
pub enum Policy {
    /// `each`: each line by a sync of its own.
    Each,
    /// `group`: all lines that are there by one sync.
    Group,
    /// `none`: each group of lines is written and not synced.
    Unsynced,
}

/// What the program does to its file.
#[derive(Clone, Copy, Debug, PartialEq, Eq)]
pub enum Task {
    /// Answers lines. The flag is `--two-syncs`: whether a commit syncs twice.
    Answer(Policy, bool),
    /// `compact`: writes the pairs alone into the second file, which counts from then on.
    Compact,
    /// `dump`: lists the pairs. The flag is `--json`.
    Dump(bool),
    /// `load`: stores the pairs of its input.
    Load,
    /// `stat`: tells how large the store is.
    Stat,
    /// `verify`: tests each byte of the files.
    Verify,
}

/// Returns the file and what is requested of it, or `None` if the words request nothing.
///
/// A file's name is not empty and does not begin with `-`.
pub fn task_of(words: &[String]) -> Option<(&str, Task)>
    ensures { IfSome result (λ it. (behind : List (List ℕ)) × (map string_bytes words.now ≡ it.0.now ∷ behind) × AskFor it.1 behind) }
{
    let (file, behind) = words.split_first()?;
    let file = file.as_str();
    if file.is_empty() || file.starts_with('-') {
        return None;
    }
    Some((file, task_behind(behind)?))
}

// Returns what the words behind the file's name request.
fn task_behind(words: &[String]) -> Option<Task>
    ensures { IfSome result (λ task. AskFor task (map string_bytes words.now)) }
{
    match words {
        [word, option] if word.as_str() == "dump" && option.as_str() == "--json" => {
            Some(Task::Dump(true))
        }
        [word] => match word_of(word.as_str()) {
            Some(task) => Some(task),
            None => options_of(words),
        },
        _ => options_of(words),
    }
}

// Returns the task that one word requests.
fn word_of(word: &str) -> Option<Task>
    ensures { IfSome result (λ task. AskFor task (word.now ∷ [])) }
{
    match word {
        "compact" => Some(Task::Compact),
        "dump" => Some(Task::Dump(false)),
        "load" => Some(Task::Load),
        "stat" => Some(Task::Stat),
        "verify" => Some(Task::Verify),
        _ => None,
    }
}

// Returns how lines are to be answered: each option at most once, in any order.
fn options_of(words: &[String]) -> Option<Task>
    ensures { IfSome result (λ task. AskFor task (map string_bytes words.now)) }
{
    match words {
        [] => Some(Task::Answer(Policy::Group, false)),
        [word] if word.as_str() == "--two-syncs" => Some(Task::Answer(Policy::Group, true)),
        [option, name] if option.as_str() == "--sync" => {
            Some(Task::Answer(policy_of(name.as_str())?, false))
        }
        [word, option, name] if word.as_str() == "--two-syncs" && option.as_str() == "--sync" => {
            Some(Task::Answer(policy_of(name.as_str())?, true))
        }
        [option, name, word] if option.as_str() == "--sync" && word.as_str() == "--two-syncs" => {
            Some(Task::Answer(policy_of(name.as_str())?, true))
        }
        _ => None,
    }
}

// Returns the policy of this name.
fn policy_of(name: &str) -> Option<Policy>
    ensures { IfSome result (λ policy. name.now ≡ policy_name policy) }
{
    match name {
        "each" => Some(Policy::Each),
        "group" => Some(Policy::Group),
        "none" => Some(Policy::Unsynced),
        _ => None,
    }
}
