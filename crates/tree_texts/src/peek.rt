//! Look-ups for a caller that doesn't count comparisons.
ghost use Rattle.std.specs.Prelude.{◌≡◌, ◌<◌};
ghost use Rattle.std.specs.Cmp.Lexicographic.{slice_cmp};
ghost use Rattle.std.specs.Ordering.{nat_cmp};
ghost use Rattle.tree_model.specs.Rest.{lent};
ghost use Rattle.tree_model.specs.Pairs.{pair_at};

use crate::bytes::{Bytes, BytesJudge};
use crate::text::Text;
use std::marker::Brand;
use std::sync::ledger::{Blank, Ledger};
use tree_index::{Seeks, Steps, TreeIndexOf};

/// Returns the pair with a text as its key. Costs what [`peek`](TreeIndexOf::peek) does, and
/// allocates nothing.
pub fn peek_text<'t, V: Drop, const LEN: usize>(
    index: &'t TreeIndexOf<Text, V, LEN>,
    text: &str,
) -> Option<(&'t Text, &'t V)>
    ensures { lent result ≡ pair_at (slice_cmp nat_cmp) index.now.pairs text.now }
{
    text_by::<V, TreeIndexOf<Text, V, LEN>, Brand>(index, text.as_bytes(), Blank::new(1))
}

// The text is passed as its bytes, since no ghost can be picked at a call that takes a text.
fn text_by<'t, V: Drop, S: Seeks<Text, V>, L: Ledger>(
    index: &'t S,
    text: &[u8],
    blank: Blank,
) -> Option<(&'t Text, &'t V)>
    requires name { blank.name ≡ L.name }
    requires parts { blank.parts ≡ L.parts }
    requires some { 0 < L.parts }
    ensures { lent result ≡ pair_at (slice_cmp nat_cmp) (S.pairs index.now) text.now }
{
    let mut judge: BytesJudge<L> = BytesJudge::new(text, Steps::new(blank));
    index.seek(&mut judge)
}

/// Returns the pair with bytes as its key. Costs what [`peek`](TreeIndexOf::peek) does, and
/// allocates nothing.
pub fn peek_bytes<'t, V: Drop, const LEN: usize>(
    index: &'t TreeIndexOf<Bytes, V, LEN>,
    bytes: &[u8],
) -> Option<(&'t Bytes, &'t V)>
    ensures { lent result ≡ pair_at (slice_cmp nat_cmp) index.now.pairs bytes.now }
{
    bytes_by::<V, TreeIndexOf<Bytes, V, LEN>, Brand>(index, bytes, Blank::new(1))
}

fn bytes_by<'t, V: Drop, S: Seeks<Bytes, V>, L: Ledger>(
    index: &'t S,
    bytes: &[u8],
    blank: Blank,
) -> Option<(&'t Bytes, &'t V)>
    requires name { blank.name ≡ L.name }
    requires parts { blank.parts ≡ L.parts }
    requires some { 0 < L.parts }
    ensures { lent result ≡ pair_at (slice_cmp nat_cmp) (S.pairs index.now) bytes.now }
{
    let mut judge: BytesJudge<L> = BytesJudge::new(bytes, Steps::new(blank));
    index.seek(&mut judge)
}
