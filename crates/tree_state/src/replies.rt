//! Which numbers of a tally a reply raises.
ghost use Rattle.std.specs.Prelude.{◌≡◌};
ghost use Rattle.tree_state.specs.Tallies.{is_refused, is_stored, is_removed, is_found, is_done, found_value};

use tree_model::Reply;

/// Returns whether the command was refused.
pub fn is_refused<V>(reply: &Reply<V>) -> bool
    ensures { result ≡ is_refused reply.now }
{
    matches!(reply, Reply::Refused)
}

/// Returns whether a pair was stored.
pub fn is_stored<V>(reply: &Reply<V>) -> bool
    ensures { result ≡ is_stored reply.now }
{
    matches!(reply, Reply::Stored)
}

/// Returns whether a pair was removed.
pub fn is_removed<V>(reply: &Reply<V>) -> bool
    ensures { result ≡ is_removed reply.now }
{
    matches!(reply, Reply::Removed(true))
}

/// Returns whether a value was found.
pub fn is_found<V>(reply: &Reply<V>) -> bool
    ensures { result ≡ is_found reply.now }
{
    matches!(reply, Reply::Found(Some(_)))
}

/// Returns whether many pairs were to be removed.
pub fn is_done<V>(reply: &Reply<V>) -> bool
    ensures { result ≡ is_done reply.now }
{
    matches!(reply, Reply::Done)
}

/// Returns the value that was found, or `None` for a reply of another kind.
pub fn found_value<V: Drop>(reply: Reply<V>) -> Option<V>
    ensures { result ≡ found_value reply }
{
    match reply {
        Reply::Found(value) => value,
        _ => None,
    }
}
