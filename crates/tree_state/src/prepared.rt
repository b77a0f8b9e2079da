//! A pair that is ready to be stored and recorded.
ghost use Rattle.std.specs.Prelude.{◌≡◌, IfOk, IfErr};
ghost use Rattle.tree_model.specs.History.{IsSameKey};

use std::alloc::AllocError;
use std::fmt;
use std::marker::Model;
use tree_index::{IndexKey, SameClone};

/// A pair with the clones of it that a history keeps. Contracts see the pair.
///
/// A caller that shares a state behind a lock prepares a pair before it takes the lock, so that
/// these clones aren't made under it.
#[derive(Drop)]
pub struct PreparedPair<K: IndexKey + SameClone, V: SameClone> {
    pub(crate) key: K,
    pub(crate) value: V,
    pub(crate) kept_key: K,
    pub(crate) kept_value: V,
}

impl<K: IndexKey + SameClone, V: SameClone> Model for PreparedPair<K, V> {
    ghost Value = { K × V };

    ghost view = { λ p. (p.key, p.value) };

    ghost invariant = { λ p. IsSameKey K.cmp K.seen p.key p.kept_key × (V.seen p.value ≡ V.seen p.kept_value) };
}

impl<K: IndexKey + SameClone, V: SameClone> PreparedPair<K, V> {
    /// Clones a key and a value.
    ///
    /// Returns `Err` with the pair if a clone cannot allocate.
    ///
    /// ```
    /// let pair = match PreparedPair::new(key, value) {
    ///     Ok(pair) => pair,
    ///     Err((key, value)) => return Err(Command::Upsert(key, value)),
    /// };
    /// ```
    pub fn new(key: K, value: V) -> Result<Self, (K, V)>
        ensures pair { IfOk result (λ pair. pair ≡ (key, value)) }
        ensures handed_back { IfErr result (λ back. back ≡ (key, value)) }
    {
        let Ok((kept_key, kept_value)) = cloned_pair(&key, &value) else {
            return Err((key, value));
        };
        Ok(PreparedPair {
            key,
            value,
            kept_key,
            kept_value,
        })
    }
}

impl<K: IndexKey + SameClone + fmt::Debug, V: SameClone + fmt::Debug> fmt::Debug
    for PreparedPair<K, V> {
    fn fmt<W: fmt::Write>(&self, f: &mut fmt::Formatter<W>) -> fmt::Result {
        write!(f, "PreparedPair({:?}, {:?})", &self.key, &self.value)
    }
}

// Clones a key and a value.
fn cloned_pair<K: IndexKey + SameClone, V: SameClone>(
    key: &K,
    value: &V,
) -> Result<(K, V), AllocError>
    ensures key { IfOk result (λ pair. IsSameKey K.cmp K.seen key.now pair.0) }
    ensures value { IfOk result (λ pair. V.seen value.now ≡ V.seen pair.1) }
{
    Ok((key.clone()?, value.clone()?))
}
