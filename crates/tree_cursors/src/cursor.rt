//! What both cursors can do, and many moves at once.
ghost use Rattle.std.specs.Prelude.{◌≡◌, IfOk, OnErr, OnOk, Option, map};
ghost use Rattle.std.specs.Borrow.{Bor};
ghost use Rattle.tree_model.specs.declared.way.Way.TheVariants.{On, Back};
ghost use Rattle.tree_model.specs.Pairs.{IsAscending};
ghost use Rattle.tree_model.specs.declared.moves.Move.TheVariants.{Next, NextBack};
ghost use Rattle.tree_model.specs.Cursor.{Cursor as Seen, shown};
ghost use Rattle.tree_model.specs.Moves.{Ended, after, after_all, answer, answers, told};
ghost use Rattle.tree_model.specs.Rest.{Moves, StandsInside, lent};
ghost use Rattle.tree_cursors.specs.Ranged.{Flips};

use crate::iter::IterOf;
use crate::range::RangeOf;
use std::alloc::{AllocError, Global};
use tree_model::{Answer, Move};

/// A cursor with two ends over pairs in the order of their keys.
pub trait Cursor<'t, K: Ord + Drop + 't, V: Drop + 't>: DoubleEndedIterator<Item = (&'t K, &'t V)> {
    ghost cursor: { Self → Seen K V };

    /// Returns the pair of the forward end, if the end is on one within the upper bound. Makes at
    /// most one comparison.
    fn get(&self) -> Option<(&'t K, &'t V)>
        ensures pair { lent result ≡ shown K.cmp On (cursor self.now) }
        ensures ascending { IsAscending K.cmp (cursor self.now).pairs }
        ensures inside { StandsInside (cursor self.now).pairs (cursor self.now).backward };

    /// Returns the pair of the backward end, if the end is on one within the lower bound. Makes at
    /// most one comparison.
    fn get_back(&self) -> Option<(&'t K, &'t V)>
        ensures pair { lent result ≡ shown K.cmp Back (cursor self.now) }
        ensures ascending { IsAscending K.cmp (cursor self.now).pairs }
        ensures inside { StandsInside (cursor self.now).pairs (cursor self.now).backward };

    /// If exactly one end has been opened and shows a pair, moves its place to the other end,
    /// leaves the first unopened and returns `true`. Returns `true` and changes nothing if neither
    /// end is opened; otherwise returns `false` and changes nothing. Makes at most one comparison.
    fn flip(&mut self) -> bool
        ensures { Flips K.cmp (cursor self.old) result (cursor self.new) };

    ghost may_move: { (s : Self) → Self.can_next s };

    ghost may_move_back: { (s : Self) → Self.can_next_back s };

    ghost moves: { (s : Self) (r : Option (Bor K × Bor V)) (t : Self) → Self.next_gives s r t → Moves K.cmp On (cursor s) r (cursor t) };

    ghost moves_back: { (s : Self) (r : Option (Bor K × Bor V)) (t : Self) → Self.next_back_gives s r t → Moves K.cmp Back (cursor s) r (cursor t) };
}

impl<'t, K: Ord + Drop + 't, V: Drop + 't, const LEN: usize> Cursor<'t, K, V>
    for RangeOf<'t, K, V, LEN> {
    ghost cursor = { λ s. s };

    ghost may_move = { λ s. tt };

    ghost may_move_back = { λ s. tt };

    ghost moves = { λ s r t h. h };

    ghost moves_back = { λ s r t h. h };

    fn get(&self) -> Option<(&'t K, &'t V)> {
        RangeOf::get(self)
    }

    fn get_back(&self) -> Option<(&'t K, &'t V)> {
        RangeOf::get_back(self)
    }

    fn flip(&mut self) -> bool {
        RangeOf::flip(self)
    }
}

impl<'t, K: Ord + Drop + 't, V: Drop + 't, const LEN: usize> Cursor<'t, K, V>
    for IterOf<'t, K, V, LEN> {
    ghost cursor = { λ s. s };

    ghost may_move = { λ s. tt };

    ghost may_move_back = { λ s. tt };

    ghost moves = { λ s r t h. h };

    ghost moves_back = { λ s r t h. h };

    fn get(&self) -> Option<(&'t K, &'t V)> {
        IterOf::get(self)
    }

    fn get_back(&self) -> Option<(&'t K, &'t V)> {
        IterOf::get_back(self)
    }

    fn flip(&mut self) -> bool {
        IterOf::flip(self)
    }
}

// Makes one move.
fn make_move<'t, K: Ord + Drop + 't, V: Drop + 't, C: Cursor<'t, K, V>>(
    cursor: &mut C,
    step: Move,
) -> Answer<'t, K, V>
    ensures answer { told result ≡ answer K.cmp step (C.cursor cursor.old) }
    ensures cursor { C.cursor cursor.new ≡ after K.cmp step (C.cursor cursor.old) }
    ensures ascending { IsAscending K.cmp (C.cursor cursor.old).pairs }
    ensures inside { StandsInside (C.cursor cursor.old).pairs (C.cursor cursor.old).backward }
{
    match step {
        Move::Next => Answer::Pair(cursor.next()),
        Move::NextBack => Answer::Pair(cursor.next_back()),
        Move::Get => Answer::Pair(cursor.get()),
        Move::GetBack => Answer::Pair(cursor.get_back()),
        Move::Flip => Answer::Flag(cursor.flip()),
    }
}

/// Makes the moves in turn, and returns their answers. Once `next` has returned `None`, it returns
/// no further pair, whatever moves are made in between; nor does `next_back`.
///
/// Returns `Err`, and makes no move, if it cannot allocate the answers, which is all it allocates.
pub fn run_moves<'t, K: Ord + Drop + 't, V: Drop + 't, C: Cursor<'t, K, V>>(
    alloc: Global,
    cursor: &mut C,
    moves: &[Move],
) -> Result<Vec<Answer<'t, K, V>>, AllocError>
    ensures answers { IfOk result (λ given. map told given.items ≡ answers K.cmp moves.now (C.cursor cursor.old)) }
    ensures ended { IfOk result (λ given. Ended Next moves.now (map told given.items)) }
    ensures ended_back { IfOk result (λ given. Ended NextBack moves.now (map told given.items)) }
    ensures cursor { OnOk result (C.cursor cursor.new ≡ after_all K.cmp moves.now (C.cursor cursor.old)) }
    ensures err { OnErr result (cursor.new ≡ cursor.old) }
{
    let mut given = Vec::with_capacity(alloc, moves.len())?;
    for step in moves {
        given.push(make_move(cursor, *step)).unwrap();
    }
    Ok(given)
}
