//! Texts and bytes that are lent, as keys of an index whose keys own theirs.
ghost use Rattle.std.specs.Prelude.{◌≡◌, ◌<◌};
ghost use Rattle.std.specs.Cmp.Lexicographic.{slice_cmp};
ghost use Rattle.std.specs.Ordering.{nat_cmp};

use crate::lent::Lent;
use std::cmp::Ordering;
use std::marker::Brand;
use std::sync::ledger::{Blank, Ledger};
use tree_array::array::{Judge, Steps};
use tree_texts::{Bytes, BytesJudge, Text};

impl Lent<Text> for &str {
    ghost key = { λ text. text.now };

    #[inline(always)]
    fn compare(&self, stored: &Text) -> Ordering {
        compare_text::<Brand>(self.as_bytes(), stored, Blank::new(1))
    }
}

impl Lent<Bytes> for &[u8] {
    ghost key = { λ bytes. bytes.now };

    #[inline(always)]
    fn compare(&self, stored: &Bytes) -> Ordering {
        compare_bytes::<Brand>(*self, stored, Blank::new(1))
    }
}

// The text is passed as its bytes, since no ghost can be picked at a call that takes a text.
#[inline(always)]
fn compare_text<L: Ledger>(text: &[u8], stored: &Text, blank: Blank) -> Ordering
    requires name { blank.name ≡ L.name }
    requires parts { blank.parts ≡ L.parts }
    requires some { 0 < L.parts }
    ensures { result ≡ slice_cmp nat_cmp text.now stored.now }
{
    let mut judge: BytesJudge<L> = BytesJudge::new(text, Steps::new(blank));
    judge.judge(stored)
}

#[inline(always)]
fn compare_bytes<L: Ledger>(bytes: &[u8], stored: &Bytes, blank: Blank) -> Ordering
    requires name { blank.name ≡ L.name }
    requires parts { blank.parts ≡ L.parts }
    requires some { 0 < L.parts }
    ensures { result ≡ slice_cmp nat_cmp bytes.now stored.now }
{
    let mut judge: BytesJudge<L> = BytesJudge::new(bytes, Steps::new(blank));
    judge.judge(stored)
}
