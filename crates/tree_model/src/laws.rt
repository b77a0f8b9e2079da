//! Laws of the definitions. Each is the contract of a function that does nothing: call it if a
//! proof needs the law.
ghost use Rattle.tree_model.specs.Laws.{EditsKeepOrder, EditsAreFound, LookUpsTellLists, LaterPutStays};

/// Storing, removing and cutting keep an ascending list ascending.
#[tactic(auto, using(crate::proofs::Ascending::order_kept))]
pub fn edits_keep_order<K: Ord, V>()
    ensures { EditsKeepOrder K V K.cmp }
{}

/// A look-up after an edit finds what the edit left at its key, and finds what it found before at
/// every other key.
pub fn edits_are_found<K: Ord, V>()
    ensures { EditsAreFound K V K.cmp }
{}

/// Two ascending lists are the same if every look-up finds the same in both.
#[tactic(auto, using(crate::proofs::LookUps::same_look_ups))]
pub fn look_ups_tell_lists<K: Ord, V>()
    ensures { LookUpsTellLists K V K.cmp }
{}

/// Of two pairs stored at equal keys the later one stays, as if it were the only one stored.
#[tactic(auto, using(crate::proofs::Ascending::put_again))]
pub fn later_put_stays<K: Ord, V>()
    ensures { LaterPutStays K V K.cmp }
{}
