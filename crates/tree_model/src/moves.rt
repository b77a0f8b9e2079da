//! The calls of a cursor as values, and their answers.

/// A call of a cursor.
#[derive(Clone, Copy, Debug, PartialEq, Eq, Drop)]
pub enum Move {
    /// Moves the forward end, and returns its pair.
    Next,
    /// Moves the backward end, and returns its pair.
    NextBack,
    /// Returns the pair of the forward end.
    Get,
    /// Returns the pair of the backward end.
    GetBack,
    /// Moves the place of the one opened end to the other end.
    Flip,
}

/// What a cursor returns from a call.
#[derive(Debug, Drop)]
pub enum Answer<'t, K, V> {
    /// The pair of an end, if it shows one.
    Pair(Option<(&'t K, &'t V)>),
    /// Whether the cursor was flipped.
    Flag(bool),
}
