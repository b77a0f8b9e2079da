//! A text as a key.
ghost use Rattle.std.specs.Prelude.{◌≡◌, ℕ, List, Some, nat_eq, refl, string_bytes};
ghost use Rattle.std.specs.Cmp.{partial_equiv_from_equiv};
ghost use Rattle.std.specs.Cmp.Lexicographic.{pointwise, slice_cmp, nat_list_eq_equiv, nat_list_cmp_total, texts_ties, texts_po};
ghost use Rattle.std.specs.Ordering.{nat_cmp};
ghost use Rattle.std.proofs.Common.{sym};
ghost use Rattle.tree_model.specs.Keys.{equal_texts};
ghost use Rattle.tree_texts.specs.Head.{HasHead};

use crate::{cmp_headed, eq_headed, head_of};
use std::alloc::AllocError;
use std::cmp::Ordering;
use std::fmt;
use std::marker::Model;
use std::sync::ledger::Ledger;
use tree_index::{IndexKey, Judge, SameClone, Steps};

/// A text that is a key. Its order is that of its bytes.
///
/// Contracts see it as its bytes, as they see a `&str`. Made of a `String`, whose memory it keeps.
/// The first eight bytes are kept beside the pointer too, as a number, so a comparison that they
/// decide reads no other memory.
#[derive(Drop)]
pub struct Text {
    head: u64,
    text: String,
}

impl Model for Text {
    ghost use Rattle.std.specs.Prelude.{ℕ, List, string_bytes};
    ghost use Rattle.tree_texts.specs.Head.{HasHead};

    ghost Value = { List ℕ };

    ghost view = { λ a. string_bytes a.text };

    ghost invariant = { λ a. HasHead a.head (string_bytes a.text) };
}

impl Text {
    /// Lends the text. Runs in constant time.
    pub fn as_str(&self) -> &str
        ensures { result.now ≡ self.now }
    {
        self.text.as_str()
    }

    // Returns the first eight bytes as a number.
    #[inline(always)]
    pub(crate) fn head(&self) -> u64
        ensures { HasHead result self.now }
    {
        self.head
    }

    /// Returns the text. Runs in constant time, and allocates nothing.
    pub fn into_string(self) -> String
        ensures { string_bytes result ≡ self }
    {
        self.text
    }
}

impl From<String> for Text {
    ghost from_gives = { λ text key. key ≡ string_bytes text };

    fn from(text: String) -> Text {
        Text {
            head: head_of(text.as_bytes()),
            text,
        }
    }
}

impl Clone for Text {
    ghost is_clone = { λ x y. y ≡ x };

    fn clone(&self) -> Result<Text, AllocError> {
        let text = self.text.clone()?;
        Ok(Text {
            head: self.head,
            text,
        })
    }
}

impl PartialEq for Text {
    ghost eq = { pointwise nat_eq };

    ghost laws = { partial_equiv_from_equiv nat_list_eq_equiv };

    fn eq(&self, other: &Self) -> bool {
        eq_headed(
            self.head,
            self.text.as_bytes(),
            other.head,
            other.text.as_bytes(),
        )
    }
}

impl Eq for Text {
    ghost laws = { nat_list_eq_equiv };
}

impl PartialOrd for Text {
    ghost partial_cmp = { λ x y. Some (slice_cmp nat_cmp x y) };

    ghost laws = { texts_po };

    fn partial_cmp(&self, other: &Self) -> Option<Ordering> {
        Some(self.cmp(other))
    }
}

impl Ord for Text {
    ghost cmp = { slice_cmp nat_cmp };

    ghost total = { nat_list_cmp_total };

    ghost matches_partial_cmp = { λ x y. refl };

    ghost matches_eq = { texts_ties };

    #[inline(always)]
    fn cmp(&self, other: &Self) -> Ordering {
        cmp_headed(
            self.head,
            self.text.as_bytes(),
            other.head,
            other.text.as_bytes(),
        )
    }
}

impl IndexKey for Text {
    ghost clone_equal = { equal_texts };
}

/// A text is seen as its bytes.
impl SameClone for Text {
    ghost Seen = { List ℕ };

    ghost seen = { λ x. x };

    ghost clone_seen = { λ x y h. sym h };
}

impl fmt::Display for Text {
    fn fmt<W: fmt::Write>(&self, f: &mut fmt::Formatter<W>) -> fmt::Result {
        fmt::Display::fmt(&self.text, f)
    }
}

impl fmt::Debug for Text {
    fn fmt<W: fmt::Write>(&self, f: &mut fmt::Formatter<W>) -> fmt::Result {
        fmt::Debug::fmt(&self.text, f)
    }
}

/// The judge of a text that is lent, among keys that own theirs. Allocates nothing.
#[derive(Drop)]
pub struct TextJudge<'k, L: Ledger> {
    head: u64,
    text: &'k str,
    steps: Steps<L>,
    ghost headed: { HasHead head text.now },
}

impl<'k, L: Ledger> TextJudge<'k, L> {
    /// Creates a judge of this text, which counts its comparisons on from `steps`.
    pub fn new(text: &'k str, steps: Steps<L>) -> Self
        ensures text { result.text.now ≡ text.now }
        ensures steps { result.steps ≡ steps }
    {
        TextJudge {
            head: head_of(text.as_bytes()),
            text,
            steps,
        }
    }
}

impl<L: Ledger> Judge<Text> for TextJudge<'_, L> {
    ghost key = { λ judge. judge.text.now };

    ghost count = { λ judge. judge.steps };

    fn judge(&mut self, stored: &Text) -> Ordering {
        self.steps.tick();
        cmp_headed(
            self.head,
            self.text.as_bytes(),
            stored.head(),
            stored.as_str().as_bytes(),
        )
    }
}
