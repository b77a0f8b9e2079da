//! What a test expects.
ghost use Rattle.std.specs.Prelude.{◌≡◌, true};

use std::fmt::Debug;
use std::process::Abort;

// Ends the test unless the value is the expected one. It is proved once, where `assert_eq!` is
// proved at each place.
pub(crate) fn expect_eq<T: PartialEq + Debug + Drop>(rt: &impl Abort, found: T, wanted: T)
    ensures { T.eq found wanted ≡ true }
{
    assert_eq!(rt; found, wanted);
}
