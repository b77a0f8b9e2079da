//! Heads, and comparisons of byte strings by them.
ghost use Rattle.std.specs.Prelude.{◌≡◌, ◌<◌, ◌≤◌, drop, length, min, nat_eq};
ghost use Rattle.std.specs.Cmp.Lexicographic.{pointwise, slice_cmp};
ghost use Rattle.std.specs.Ordering.{nat_cmp};
ghost use Rattle.tree_texts.specs.Head.{AreBytes, HasHead, head_of};

use std::cmp::Ordering;

/// Returns the first eight bytes as a number whose order is theirs. Fewer bytes are filled up with
/// zeros. Runs in constant time.
#[inline(always)]
pub fn head_of(bytes: &[u8]) -> u64
    ensures { HasHead result bytes.now }
{
    if bytes.len() < 8 {
        return head_of_few(bytes);
    }
    u64::from_be_bytes([
        bytes[0], bytes[1], bytes[2], bytes[3], bytes[4], bytes[5], bytes[6], bytes[7],
    ])
}

// Does what [`head_of`] does, byte by byte.
fn head_of_few(bytes: &[u8]) -> u64
    ensures { HasHead result bytes.now }
{
    let mut head = 0u64;
    for at in 0..8 {
        let byte = if at < bytes.len() { bytes[at] } else { 0 };
        head = head * 256 + byte as u64;
    }
    head
}

/// Compares byte strings by their heads, and if these are equal by the bytes. The order is that of
/// slices.
///
/// Different heads decide without a look at the bytes. Equal ones take one comparison of numbers
/// per eight bytes that the strings have in common.
#[inline(always)]
pub fn cmp_headed(head: u64, bytes: &[u8], other_head: u64, other: &[u8]) -> Ordering
    requires head { HasHead head bytes.now }
    requires other { HasHead other_head other.now }
    ensures { result ≡ slice_cmp nat_cmp bytes.now other.now }
{
    if head == other_head {
        return cmp_tied(head, bytes, other);
    }
    head.cmp(&other_head)
}

// Compares byte strings with the same head, eight bytes at a time.
fn cmp_tied(head: u64, bytes: &[u8], other: &[u8]) -> Ordering
    requires head { HasHead head bytes.now }
    requires other { HasHead head other.now }
    ensures { result ≡ slice_cmp nat_cmp bytes.now other.now }
{
    let mut bytes = bytes;
    let mut other = other;
    while 16 <= bytes.len() && 16 <= other.len() {
        bytes = past(bytes, 8);
        other = past(other, 8);
        let head = head_of(bytes);
        let other_head = head_of(other);
        if head != other_head {
            return head.cmp(&other_head);
        }
    }
    cmp_last(bytes, other)
}

// Compares byte strings with the same head, if one of them has fewer than sixteen bytes. The last
// eight bytes that both have may overlap the head, so that no byte is read alone.
#[inline(always)]
fn cmp_last(bytes: &[u8], other: &[u8]) -> Ordering
    requires bytes { AreBytes bytes.now }
    requires other { AreBytes other.now }
    requires tied { head_of bytes.now ≡ head_of other.now }
    requires short { min (length bytes.now) (length other.now) < 16 }
    ensures { result ≡ slice_cmp nat_cmp bytes.now other.now }
{
    let both = bytes.len().min(other.len());
    if 8 < both {
        let head = head_of(past(bytes, both - 8));
        let other_head = head_of(past(other, both - 8));
        if head != other_head {
            return head.cmp(&other_head);
        }
    }
    bytes.len().cmp(&other.len())
}

// Lends what follows the first `count` bytes.
#[inline(always)]
fn past(bytes: &[u8], count: usize) -> &[u8]
    requires { count ≤ length bytes.now }
    ensures { result.now ≡ drop count bytes.now }
{
    &bytes[count..]
}

/// Returns whether two byte strings are the same. Different heads decide without a look at the
/// bytes.
#[inline(always)]
pub fn eq_headed(head: u64, bytes: &[u8], other_head: u64, other: &[u8]) -> bool
    requires head { HasHead head bytes.now }
    requires other { HasHead other_head other.now }
    ensures { result ≡ pointwise nat_eq bytes.now other.now }
{
    cmp_headed(head, bytes, other_head, other).is_eq()
}
