//! Keys and values that are made of others: tuples, options, borrowed texts, and bytes.
ghost use Rattle.std.specs.Prelude.{ℕ, List, Option};
ghost use Rattle.std.specs.Option.{option_map};
ghost use Rattle.std.proofs.Common.{ap, sym, rules};
ghost use Rattle.std.proofs.lemmas.List.Elements.{same_from_all_zip};
ghost use Rattle.tree_model.specs.Keys.{equal_texts};

use crate::keys::{IndexKey, SameClone};

impl<A: IndexKey, B: IndexKey> IndexKey for (A, B) {
    ghost clone_equal = { Prim.search rules };
}

impl<A: SameClone, B: SameClone> SameClone for (A, B) {
    ghost Seen = { A.Seen × B.Seen };

    ghost seen = { λ x. (A.seen x.0, B.seen x.1) };

    ghost clone_seen = { Prim.search rules };
}

impl<A: IndexKey, B: IndexKey, C: IndexKey> IndexKey for (A, B, C) {
    ghost clone_equal = { Prim.search rules };
}

impl<A: SameClone, B: SameClone, C: SameClone> SameClone for (A, B, C) {
    ghost Seen = { A.Seen × B.Seen × C.Seen };

    ghost seen = { λ x. (A.seen x.0, B.seen x.1, C.seen x.2) };

    ghost clone_seen = { Prim.search rules };
}

/// `None` comes before each `Some`, as everywhere.
impl<K: IndexKey> IndexKey for Option<K> {
    ghost clone_equal = { Prim.search rules };
}

impl<V: SameClone> SameClone for Option<V> {
    ghost Seen = { Option V.Seen };

    ghost seen = { λ x. option_map (λ value. V.seen value) x };

    ghost clone_seen = { Prim.search rules };
}

/// A borrowed text. It is seen as its bytes.
impl IndexKey for &str {
    ghost clone_equal = { λ x y h. equal_texts x.now y.now (ap (λ t. t.now) h) };
}

impl SameClone for &str {
    ghost Seen = { List ℕ };

    ghost seen = { λ x. x.now };

    ghost clone_seen = { λ x y h. sym (ap (λ t. t.now) h) };
}

/// Borrowed bytes. They are seen as they are.
impl IndexKey for &[u8] {
    ghost clone_equal = { λ x y h. equal_texts x.now y.now (ap (λ t. t.now) h) };
}

impl SameClone for &[u8] {
    ghost Seen = { List ℕ };

    ghost seen = { λ x. x.now };

    ghost clone_seen = { λ x y h. sym (ap (λ t. t.now) h) };
}

/// Bytes. Their order is that of their first difference, a prefix first.
impl IndexKey for Vec<u8> {
    ghost clone_equal = { λ x y h. equal_texts x.items y.items (same_from_all_zip _ x.items y.items h.0 (λ a b e. e)) };
}

impl SameClone for Vec<u8> {
    ghost Seen = { List ℕ };

    ghost seen = { λ x. x.items };

    ghost clone_seen = { λ x y h. sym (same_from_all_zip _ x.items y.items h.0 (λ a b e. e)) };
}

/// An array of bytes, in the same order.
impl<const N: usize> IndexKey for [u8; N] {
    ghost clone_equal = { λ x y h. equal_texts x y (same_from_all_zip _ x y h.whole (λ a b e. e)) };
}

impl<const N: usize> SameClone for [u8; N] {
    ghost seen = { λ x. x };

    ghost clone_seen = { λ x y h. sym (same_from_all_zip _ x y h.whole (λ a b e. e)) };
}
