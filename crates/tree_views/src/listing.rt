//! The pairs that a cursor has left, as `Debug` prints them.
use std::fmt;
use tree_cursors::iter::IterOf;

/// Prints the pairs that a cursor has left on its way on, as a list.
pub fn list_pairs<
    't,
    K: Ord + Drop + fmt::Debug + 't,
    V: Drop + fmt::Debug + 't,
    W: fmt::Write,
    const LEN: usize,
>(pairs: IterOf<'t, K, V, LEN>, f: &mut fmt::Formatter<W>) -> fmt::Result {
    let mut pairs = pairs;
    let mut list = f.debug_list();
    while let Some(pair) = pairs.next() {
        list.entry(&pair);
    }
    list.finish()
}
