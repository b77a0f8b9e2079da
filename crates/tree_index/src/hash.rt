//! Hashes of indexes.
ghost use Rattle.std.specs.Prelude.{◌++◌};
ghost use Rattle.std.specs.Hash.{and-Alike, on_Alike};
ghost use Rattle.tree_index.specs.Hashed.{counted, counted_alike};

use crate::index::TreeIndexOf;
use std::hash::{Hash, Hasher};
use tree_array::array::IndexKey;
use tree_views::hash::feed;

/// Feeds what [`len`](TreeIndexOf::len) returns, and then each pair in order, its key before its
/// value. Allocates nothing.
///
/// ```
/// let mut hasher = DefaultHasher::new();
/// index.hash(&mut hasher);
/// hasher.finish()
/// ```
impl<K: IndexKey + Hash, V: Drop + Hash, const LEN: usize> Hash for TreeIndexOf<K, V, LEN> {
    ghost hash_input = { λ a. counted (λ p. K.hash_input p.0 ++ V.hash_input p.1) a.pairs };

    ghost respects_eq = { λ a b. counted_alike (and-Alike (on_Alike (λ p. p.0) (record { fed = K.respects_eq })) (on_Alike (λ p. p.1) (record { fed = V.respects_eq }))) a.pairs b.pairs };

    fn hash<H: Hasher>(&self, state: &mut H) {
        self.len().hash(state);
        feed(self.iter(), state);
    }
}
