//! The calls of a storm's workers before and after each call of the index.
ghost use Rattle.std.specs.Prelude.{◌≡◌, ℕ, Bool, true, ⊤};

/// What each worker of a storm calls before and after each call of the index. Workers count from 0,
/// and the calls of each from 1.
pub trait Gate {
    // What `before` may return to a worker. Contracts of storms state what their gate returned.
    ghost answers: { Self → ℕ → ℕ → Bool → Type 0 } = { λ _ _ _ _. ⊤ };

    /// Called before each call of the index. A worker to which it returns `false` stops. Costs each
    /// call of the index one call, outside the lock.
    fn before(&self, worker: usize, call: u64) -> bool
        ensures { answers self.now worker call result };

    /// Called after each call of the index, once it has returned. Costs each call of the index one
    /// call, outside the lock.
    fn after(&self, worker: usize, call: u64)
        requires { answers self.now worker call true };
}

/// A gate whose `before` always returns `true`.
#[derive(Clone, Copy)]
pub struct OpenGate;

impl Gate for OpenGate {
    ghost answers = { λ _ _ _ answer. answer ≡ true };

    fn before(&self, _worker: usize, _call: u64) -> bool {
        true
    }

    fn after(&self, _worker: usize, _call: u64) {}
}
