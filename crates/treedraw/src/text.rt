//! Texts of a picture: forms with numbers in them, and the line that a picture is of.
use std::alloc::AllocError;
use tree_lines::write_number;

/// The most bytes of a line that a picture shows.
pub const MOST_SHOWN: usize = 60;

/// Appends a form to a picture, in which `~a` is replaced by the first number, `~b` by the second,
/// and so on.
///
/// Returns `Err` if an allocation fails; part of the form may have been appended.
pub fn put(picture: &mut Vec<u8>, form: &[u8], numbers: &[u64]) -> Result<(), AllocError> {
    let mut is_named = false;
    for byte in form {
        if is_named {
            put_number(picture, number_at(numbers, *byte))?;
        } else if *byte != b'~' {
            picture.push(*byte)?;
        }
        is_named = !is_named && *byte == b'~';
    }
    Ok(())
}

// Returns the number that a letter names, or 0 if there is none.
fn number_at(numbers: &[u64], letter: u8) -> u64 {
    let place = usize::from(letter.saturating_sub(b'a'));
    if place < numbers.len() {
        numbers[place]
    } else {
        0
    }
}

// Appends the decimal digits of a number.
fn put_number(picture: &mut Vec<u8>, number: u64) -> Result<(), AllocError> {
    match write_number(picture, number) {
        Ok(()) => Ok(()),
        Err(_) => Err(AllocError),
    }
}

/// Appends the first bytes of a line, without its line feed. A byte that no request has is replaced
/// by `?`, so the text means nothing to DOT and SVG.
///
/// Returns `Err` if an allocation fails; part of the line may have been appended.
pub fn put_line(picture: &mut Vec<u8>, line: &[u8]) -> Result<(), AllocError> {
    let (shown, _) = line.split_at(line.len().min(MOST_SHOWN));
    for byte in shown {
        match *byte {
            b'\n' => {}
            b'a'..=b'z' | b'0'..=b'9' | b' ' | b'_' | b'-' | b'[' | b'(' => picture.push(*byte)?,
            _ => picture.push(b'?')?,
        }
    }
    Ok(())
}
