//! What a lock guards, as seen by a call that takes the lock.
ghost use Rattle.std.specs.Prelude.{◌<◌};
ghost use Rattle.tree_state.specs.declared.tally.Tally.{Tally};

use std::sync::{Mutex, Wait};
use tree_state::{Books, PassOf};

/// What answers requests, and counts the answers in the pass of the calling worker.
///
/// A call that takes the lock knows what it guards only by this trait, so it doesn't depend on the
/// number of slots.
pub trait Serves<Q, A, B: Books>: Drop {
    // What an answer to a request makes of the pass's tally.
    ghost counts: { Q → A → Tally → Tally → Type 0 };

    // What it makes of what answers.
    ghost records: { Self → Q → A → Self → Type 0 };

    /// Answers a request.
    fn serve(&mut self, pass: &mut PassOf<B>, request: Q) -> A
        requires { pass.old.calls < u64.MAX }
        ensures counted { counts request result pass.old pass.new }
        ensures recorded { records self.old request result self.new };
}

/// Takes the lock, and answers a request under it.
///
/// No clause sees what the lock guards. But nothing else makes an `A` from a `Q`, so the answer is
/// what `serve` returned for this request.
#[inline(always)]
pub fn serve<Q, A, B: Books, T: Serves<Q, A, B>, R: Wait>(
    lock: &Mutex<T>,
    rt: &R,
    pass: &mut PassOf<B>,
    request: Q,
) -> A
    requires { pass.old.calls < u64.MAX }
    ensures { T.counts request result pass.old pass.new }
{
    // A free lock is taken here, so that only waiting is a call.
    let mut guarded = match lock.try_lock() {
        Some(guarded) => guarded,
        None => lock.lock(rt),
    };
    guarded.serve(pass, request)
}
