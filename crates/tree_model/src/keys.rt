//! What an index requires of its keys, and what a history requires of keys and values.
ghost use Rattle.std.specs.Prelude.{◌≡◌, ℕ, List, string_bytes};
ghost use Rattle.std.specs.declared.cmp.Ordering.TheVariants.{Equal};
ghost use Rattle.std.proofs.Common.{sym};
ghost use Rattle.tree_model.specs.Keys.{equal_booleans, equal_integers, equal_numbers, equal_texts};

/// A key of an index. Its order is total and agrees with its equality, as `Ord` requires, and a
/// clone compares equal to its source.
///
/// An index clones a key when it needs a separator. If a clone cannot allocate, the insert returns
/// `Err`.
pub trait IndexKey: Clone + Ord + Drop {
    ghost clone_equal: { (x y : Self) → Self.is_clone x y → Self.cmp x y ≡ Equal };
}

/// A key or a value that a history may keep a clone of. Contracts see a value as its `seen`, and a
/// clone is seen as its source is. What is seen is of the value's own type, unless an impl states
/// otherwise.
pub trait SameClone: Clone + Drop {
    ghost Seen: { Type 0 } = { Self };

    ghost seen: { Self → Seen };

    ghost clone_seen: { (x y : Self) → Self.is_clone x y → seen x ≡ seen y };
}

impl IndexKey for bool {
    ghost clone_equal = { equal_booleans };
}

impl SameClone for bool {
    ghost seen = { λ x. x };

    ghost clone_seen = { λ x y h. sym h };
}

impl IndexKey for String {
    ghost clone_equal = { λ x y h. equal_texts (string_bytes x) (string_bytes y) h };
}

/// A text is seen as its bytes.
impl SameClone for String {
    ghost Seen = { List ℕ };

    ghost seen = { string_bytes };

    ghost clone_seen = { λ x y h. sym h };
}

impl IndexKey for u8 {
    ghost clone_equal = { equal_numbers };
}

impl SameClone for u8 {
    ghost seen = { λ x. x };

    ghost clone_seen = { λ x y h. sym h };
}

impl IndexKey for u16 {
    ghost clone_equal = { equal_numbers };
}

impl SameClone for u16 {
    ghost seen = { λ x. x };

    ghost clone_seen = { λ x y h. sym h };
}

impl IndexKey for u32 {
    ghost clone_equal = { equal_numbers };
}

impl SameClone for u32 {
    ghost seen = { λ x. x };

    ghost clone_seen = { λ x y h. sym h };
}

impl IndexKey for u64 {
    ghost clone_equal = { equal_numbers };
}

impl SameClone for u64 {
    ghost seen = { λ x. x };

    ghost clone_seen = { λ x y h. sym h };
}

impl IndexKey for u128 {
    ghost clone_equal = { equal_numbers };
}

impl SameClone for u128 {
    ghost seen = { λ x. x };

    ghost clone_seen = { λ x y h. sym h };
}

impl IndexKey for usize {
    ghost clone_equal = { equal_numbers };
}

impl SameClone for usize {
    ghost seen = { λ x. x };

    ghost clone_seen = { λ x y h. sym h };
}

impl IndexKey for char {
    ghost clone_equal = { equal_numbers };
}

impl SameClone for char {
    ghost seen = { λ x. x };

    ghost clone_seen = { λ x y h. sym h };
}

impl IndexKey for i8 {
    ghost clone_equal = { equal_integers };
}

impl SameClone for i8 {
    ghost seen = { λ x. x };

    ghost clone_seen = { λ x y h. sym h };
}

impl IndexKey for i16 {
    ghost clone_equal = { equal_integers };
}

impl SameClone for i16 {
    ghost seen = { λ x. x };

    ghost clone_seen = { λ x y h. sym h };
}

impl IndexKey for i32 {
    ghost clone_equal = { equal_integers };
}

impl SameClone for i32 {
    ghost seen = { λ x. x };

    ghost clone_seen = { λ x y h. sym h };
}

impl IndexKey for i64 {
    ghost clone_equal = { equal_integers };
}

impl SameClone for i64 {
    ghost seen = { λ x. x };

    ghost clone_seen = { λ x y h. sym h };
}

impl IndexKey for i128 {
    ghost clone_equal = { equal_integers };
}

impl SameClone for i128 {
    ghost seen = { λ x. x };

    ghost clone_seen = { λ x y h. sym h };
}

impl IndexKey for isize {
    ghost clone_equal = { equal_integers };
}

impl SameClone for isize {
    ghost seen = { λ x. x };

    ghost clone_seen = { λ x y h. sym h };
}
