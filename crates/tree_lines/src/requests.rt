//! Parses the request that a line spells.
ghost use Rattle.std.specs.Prelude.{◌≡◌, []};
ghost use Rattle.tree_lines.specs.Spelling.{Fits, arguments_of, name_of, spelling};
ghost use Rattle.tree_lines.specs.Words.{ReadsArguments, ReadsAs};

use crate::bounds::two_bounds_of;
use crate::numbers::{one_number_of, two_numbers_of};
use crate::words::first_word;
use std::ops::Bound;

/// A request to an index of `u64` keys and values, as one line spells it.
#[derive(Clone, Copy, Debug, PartialEq, Eq)]
pub enum Request {
    /// `insert K V`: stores a pair if the key is absent.
    Insert(u64, u64),
    /// `upsert K V`: stores a pair and replaces one with the same key.
    Upsert(u64, u64),
    /// `remove K`: removes the pair at a key.
    Remove(u64),
    /// `remove_if K V`: removes the pair at a key if it has this value.
    RemoveIf(u64, u64),
    /// `remove_range LO HI`: removes every pair whose key is within both bounds.
    RemoveRange(Bound<u64>, Bound<u64>),
    /// `clear`: removes all pairs.
    Clear,
    /// `peek K`: returns the value at a key.
    Peek(u64),
    /// `contains K`: returns whether a key is present.
    Contains(u64),
    /// `len`: returns the number of pairs.
    Len,
    /// `depth`: returns the number of levels of nodes.
    Depth,
    /// `spare`: returns how many writes are sure not to allocate.
    Spare,
    /// `iter`: returns all pairs, in ascending order.
    Iter,
    /// `back`: returns all pairs, in descending order.
    Back,
    /// `range LO HI`: returns the pairs whose keys are within both bounds, in ascending order.
    Range(Bound<u64>, Bound<u64>),
    /// `locate K`: returns where a key is: present, or between which pairs.
    Locate(u64),
}

/// Parses a line, without its line feed. Returns `None` if it is not the spelling of a request.
/// Reads it once and allocates nothing.
///
/// ```
/// let Some(text) = line.text() else {
///     return Answer::Unknown;
/// };
/// respond(index, request_of(text))
/// ```
pub fn request_of(line: &[u8]) -> Option<Request>
    ensures { ReadsAs Fits spelling line.now result }
{
    let (name, arguments) = first_word(line);
    request_named(name, arguments)
}

// Parses the arguments of a request of this name.
fn request_named(name: &[u8], arguments: &[u8]) -> Option<Request>
    ensures { ReadsArguments name.now arguments.now result }
{
    // Compared whole, since a proof loses the last byte of so long a pattern.
    if name == b"remove_range".as_slice() {
        return two_bounds_of(arguments).map(|(low, high)| Request::RemoveRange(low, high));
    }
    match name {
        b"insert" => two_numbers_of(arguments).map(|(key, value)| Request::Insert(key, value)),
        b"upsert" => two_numbers_of(arguments).map(|(key, value)| Request::Upsert(key, value)),
        b"remove" => one_number_of(arguments).map(|key| Request::Remove(key)),
        b"remove_if" => two_numbers_of(arguments).map(|(key, value)| Request::RemoveIf(key, value)),
        b"clear" => without_arguments(Request::Clear, arguments),
        b"peek" => one_number_of(arguments).map(|key| Request::Peek(key)),
        b"contains" => one_number_of(arguments).map(|key| Request::Contains(key)),
        b"len" => without_arguments(Request::Len, arguments),
        b"depth" => without_arguments(Request::Depth, arguments),
        b"spare" => without_arguments(Request::Spare, arguments),
        b"iter" => without_arguments(Request::Iter, arguments),
        b"back" => without_arguments(Request::Back, arguments),
        b"range" => two_bounds_of(arguments).map(|(low, high)| Request::Range(low, high)),
        b"locate" => one_number_of(arguments).map(|key| Request::Locate(key)),
        _ => None,
    }
}

// Returns the request, which has no arguments, if its line has none.
fn without_arguments(request: Request, arguments: &[u8]) -> Option<Request>
    requires { arguments_of request ≡ [] }
    ensures { ReadsArguments (name_of request) arguments.now result }
{
    if arguments.is_empty() {
        return Some(request);
    }
    None
}
