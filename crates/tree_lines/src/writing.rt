//! Writes that are whole or fail.
ghost use Rattle.std.specs.Prelude.{decimal};
ghost use Rattle.tree_lines.specs.Writing.{Writes};

use crate::short_text::ShortText;
use std::error::Error;
use std::fmt;
use std::io::Write;

/// The error of [`write_whole`]: a write failed or took no byte.
#[derive(Clone, Copy, Debug, PartialEq, Eq)]
pub struct WriteFailed;

impl fmt::Display for WriteFailed {
    fn fmt<W: fmt::Write>(&self, f: &mut fmt::Formatter<W>) -> fmt::Result {
        write!(f, "a write failed")
    }
}

impl Error for WriteFailed {}

/// Writes all of the bytes, by as many writes as that takes.
///
/// Returns `Err` if a write fails or takes no byte; a prefix of the bytes may have been written. An
/// interrupted write is not tried again. Allocates nothing.
///
/// ```
/// let _ = write_whole(errors, b"usage: treetool [--small | storm W N]\n");
/// ```
pub fn write_whole<W: Write>(output: &mut W, bytes: &[u8]) -> Result<(), WriteFailed>
    ensures { Writes bytes.now (W.contents output.old) (W.contents output.new) result }
{
    let mut rest = bytes;
    while !rest.is_empty() {
        let count = output.write(rest).unwrap_or(0);
        if count == 0 {
            return Err(WriteFailed);
        }
        let (_, left) = rest.split_at(count);
        rest = left;
    }
    Ok(())
}

/// Writes the decimal digits of a number.
///
/// Returns `Err` if a write fails; some of the digits may have been written. Allocates nothing.
///
/// ```
/// write_whole(output, counted)?;
/// write_number(output, number)
/// ```
pub fn write_number<W: Write>(output: &mut W, n: u64) -> Result<(), WriteFailed>
    ensures { Writes (decimal n) (W.contents output.old) (W.contents output.new) result }
{
    let mut text = ShortText::new();
    text.push_number_front(n);
    write_whole(output, text.as_bytes())
}
