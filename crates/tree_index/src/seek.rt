//! Look-ups by just a key.
ghost use Rattle.std.specs.Prelude.{◌≡◌, ◌<◌, List};
ghost use Rattle.tree_model.specs.Pairs.{Finds, IsAscending};

use std::marker::Brand;
use std::sync::ledger::{Blank, Ledger};
use tree_array::array::{Judge, KeyJudge, Steps};

/// A type that is searched by a judge.
pub trait Seeks<K: Ord, V> {
    ghost pairs: { Self → List (K × V) };

    /// Returns the pair with the judge's key. An index makes the comparisons of one descent.
    fn seek<J: Judge<K>>(&self, judge: &mut J) -> Option<(&K, &V)>
        ensures ascending { IsAscending K.cmp (pairs self.now) }
        ensures found { Finds K.cmp (pairs self.now) (J.key judge.old) result };
}

/// Returns the pair with a key, for a caller that doesn't count comparisons.
#[inline(always)]
pub fn pair_of<'a, K: Ord, V, S: Seeks<K, V>>(sought: &'a S, key: &K) -> Option<(&'a K, &'a V)>
    ensures ascending { IsAscending K.cmp (S.pairs sought.now) }
    ensures found { Finds K.cmp (S.pairs sought.now) key.now result }
{
    pair_by::<K, V, S, Brand>(sought, key, Blank::new(1))
}

#[inline(always)]
fn pair_by<'a, K: Ord, V, S: Seeks<K, V>, L: Ledger>(
    sought: &'a S,
    key: &K,
    blank: Blank,
) -> Option<(&'a K, &'a V)>
    requires name { blank.name ≡ L.name }
    requires parts { blank.parts ≡ L.parts }
    requires some { 0 < L.parts }
    ensures ascending { IsAscending K.cmp (S.pairs sought.now) }
    ensures found { Finds K.cmp (S.pairs sought.now) key.now result }
{
    let mut judge: KeyJudge<K, L> = KeyJudge::new(key, Steps::new(blank));
    sought.seek(&mut judge)
}
