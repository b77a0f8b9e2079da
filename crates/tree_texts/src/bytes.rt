//! Bytes as a key.
ghost use Rattle.std.specs.Prelude.{◌≡◌, ℕ, List, Some, nat_eq, refl};
ghost use Rattle.std.specs.Cmp.{partial_equiv_from_equiv};
ghost use Rattle.std.specs.Cmp.Lexicographic.{pointwise, slice_cmp, nat_list_eq_equiv, nat_list_cmp_total, texts_ties, texts_po};
ghost use Rattle.std.specs.Ordering.{nat_cmp};
ghost use Rattle.std.proofs.Common.{sym};
ghost use Rattle.tree_model.specs.Keys.{equal_texts};
ghost use Rattle.tree_texts.specs.Head.{HasHead};

use crate::text::Text;
use crate::{cmp_headed, eq_headed, head_of};
use std::alloc::AllocError;
use std::cmp::Ordering;
use std::fmt;
use std::marker::Model;
use std::sync::ledger::Ledger;
use tree_index::{IndexKey, Judge, SameClone, Steps};

/// Bytes that are a key. Their order is that of the first difference, a prefix first.
///
/// Contracts see the list of them, as they see a `&[u8]`. Made of a `Vec<u8>`, whose memory they
/// keep. The first eight bytes are kept beside the pointer too, as a number, so a comparison that
/// they decide reads no other memory.
#[derive(Drop)]
pub struct Bytes {
    head: u64,
    bytes: Vec<u8>,
}

impl Model for Bytes {
    ghost use Rattle.std.specs.Prelude.{ℕ, List};
    ghost use Rattle.tree_texts.specs.Head.{HasHead};

    ghost Value = { List ℕ };

    ghost view = { λ a. a.bytes.items };

    ghost invariant = { λ a. HasHead a.head a.bytes.items };
}

impl Bytes {
    /// Lends the bytes. Runs in constant time.
    pub fn as_slice(&self) -> &[u8]
        ensures { result.now ≡ self.now }
    {
        self.bytes.as_slice()
    }

    // Returns the first eight bytes as a number.
    #[inline(always)]
    pub(crate) fn head(&self) -> u64
        ensures { HasHead result self.now }
    {
        self.head
    }

    /// Returns the bytes. Runs in constant time, and allocates nothing.
    pub fn into_vec(self) -> Vec<u8>
        ensures { result.items ≡ self }
    {
        self.bytes
    }
}

impl From<Vec<u8>> for Bytes {
    ghost from_gives = { λ bytes key. key ≡ bytes.items };

    fn from(bytes: Vec<u8>) -> Bytes {
        Bytes {
            head: head_of(bytes.as_slice()),
            bytes,
        }
    }
}

impl Clone for Bytes {
    ghost is_clone = { λ x y. y ≡ x };

    fn clone(&self) -> Result<Bytes, AllocError> {
        let bytes = self.bytes.clone()?;
        Ok(Bytes {
            head: self.head,
            bytes,
        })
    }
}

impl PartialEq for Bytes {
    ghost eq = { pointwise nat_eq };

    ghost laws = { partial_equiv_from_equiv nat_list_eq_equiv };

    fn eq(&self, other: &Self) -> bool {
        eq_headed(
            self.head,
            self.bytes.as_slice(),
            other.head,
            other.bytes.as_slice(),
        )
    }
}

impl Eq for Bytes {
    ghost laws = { nat_list_eq_equiv };
}

impl PartialOrd for Bytes {
    ghost partial_cmp = { λ x y. Some (slice_cmp nat_cmp x y) };

    ghost laws = { texts_po };

    fn partial_cmp(&self, other: &Self) -> Option<Ordering> {
        Some(self.cmp(other))
    }
}

impl Ord for Bytes {
    ghost cmp = { slice_cmp nat_cmp };

    ghost total = { nat_list_cmp_total };

    ghost matches_partial_cmp = { λ x y. refl };

    ghost matches_eq = { texts_ties };

    #[inline(always)]
    fn cmp(&self, other: &Self) -> Ordering {
        cmp_headed(
            self.head,
            self.bytes.as_slice(),
            other.head,
            other.bytes.as_slice(),
        )
    }
}

impl IndexKey for Bytes {
    ghost clone_equal = { equal_texts };
}

/// They are seen as they are.
impl SameClone for Bytes {
    ghost Seen = { List ℕ };

    ghost seen = { λ x. x };

    ghost clone_seen = { λ x y h. sym h };
}

impl fmt::Debug for Bytes {
    fn fmt<W: fmt::Write>(&self, f: &mut fmt::Formatter<W>) -> fmt::Result {
        fmt::Debug::fmt(&self.bytes, f)
    }
}

/// The judge of bytes that are lent, among keys that own theirs. Allocates nothing.
#[derive(Drop)]
pub struct BytesJudge<'k, L: Ledger> {
    head: u64,
    bytes: &'k [u8],
    steps: Steps<L>,
    ghost headed: { HasHead head bytes.now },
}

impl<'k, L: Ledger> BytesJudge<'k, L> {
    /// Creates a judge of these bytes, which counts its comparisons on from `steps`.
    pub fn new(bytes: &'k [u8], steps: Steps<L>) -> Self
        ensures bytes { result.bytes.now ≡ bytes.now }
        ensures steps { result.steps ≡ steps }
    {
        BytesJudge {
            head: head_of(bytes),
            bytes,
            steps,
        }
    }
}

impl<L: Ledger> Judge<Bytes> for BytesJudge<'_, L> {
    ghost key = { λ judge. judge.bytes.now };

    ghost count = { λ judge. judge.steps };

    fn judge(&mut self, stored: &Bytes) -> Ordering {
        self.steps.tick();
        cmp_headed(self.head, self.bytes, stored.head(), stored.as_slice())
    }
}

/// The same among texts, which are ordered as their bytes are.
impl<L: Ledger> Judge<Text> for BytesJudge<'_, L> {
    ghost key = { λ judge. judge.bytes.now };

    ghost count = { λ judge. judge.steps };

    fn judge(&mut self, stored: &Text) -> Ordering {
        self.steps.tick();
        cmp_headed(
            self.head,
            self.bytes,
            stored.head(),
            stored.as_str().as_bytes(),
        )
    }
}
