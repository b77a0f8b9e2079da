//! Tests in which allocations fail.
use std::alloc::{AllocError, Global};

/// Returns whether the steps of a test succeed, at once or, if an allocation failed on the way, the
/// second time.
///
/// In an ordinary run no allocation fails, so a call that fails without need fails the test. With
/// one failed allocation the steps succeed the second time. If every allocation fails from some
/// point on, they can't; then one of this function fails too, and the test ends well: what the
/// steps assert is what it shows.
pub fn succeeds<F: Fn() -> Result<(), AllocError> + Drop>(alloc: Global, steps: F) -> bool
    requires { F.IsAlwaysCallable steps }
{
    steps().is_ok() || steps().is_ok() || is_out_of_memory(alloc)
}

/// Returns whether a small allocation fails.
pub fn is_out_of_memory(alloc: Global) -> bool {
    Vec::<u8>::with_capacity(alloc, 1).is_err()
}

/// Returns whether a call of this name, which was made again after an allocation failed in it,
/// could allocate this time. Returns `Err` if nothing can be allocated any more, so that it
/// couldn't.
pub fn is_granted_again(alloc: Global, call: &str, is_granted: bool) -> Result<bool, AllocError> {
    if is_granted {
        answers_again(alloc, call);
    } else if is_out_of_memory(alloc) {
        return Err(AllocError);
    }
    Ok(is_granted)
}

// How `bench/refusals` learns which call makes a request: `bench/refuse.c`, which is in front of
// the allocator, knows a block of one of these sizes, reads the name in it when it is freed, and
// never counts or refuses its request. Nothing else asks for so many bytes.
const BEGINS: usize = 40961;

const ENDS: usize = 40963;

const ANSWERS_AGAIN: usize = 40973;

/// Tells `bench/refusals` that this thread's next requests are those of the call of this name. An
/// ordinary run shows nothing of it.
pub fn begins(alloc: Global, call: &str) {
    note(alloc, BEGINS, call);
}

/// Tells `bench/refusals` that this thread's next requests are the test's own.
pub fn ends(alloc: Global) {
    note(alloc, ENDS, "");
}

/// Tells `bench/refusals` that the call of this name was made again after an allocation failed in
/// it, and answered as it should.
pub fn answers_again(alloc: Global, call: &str) {
    note(alloc, ANSWERS_AGAIN, call);
}

// Writes a name and a zero into a block of this size, and frees the block.
fn note(alloc: Global, size: usize, call: &str) {
    let Ok(mut block) = Vec::<u8>::with_capacity(alloc, size) else {
        return;
    };
    for byte in call.as_bytes() {
        let _ = block.push(*byte);
    }
    let _ = block.push(0);
}
