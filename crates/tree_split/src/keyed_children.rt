//! The keyed children of a node: where an array of them divides, and one more is put among them.
ghost use Rattle.std.specs.Prelude.{◌≡◌, ◌<◌, ◌≤◌, IfSome, MatchOption, length};
ghost use Rattle.tree_array.specs.Insertion.{HasRoom};
ghost use Rattle.tree_array.specs.Sound.{IsSound};
ghost use Rattle.tree_model.specs.Pairs.{IsAbsent};
ghost use Rattle.tree_node.specs.Arenas.{boundary, limit, stored};

use tree_array::array::ArrayOf;

/// Returns the place of the child at which the array divides, which is its boundary, or `None` if
/// the array is rebuilt instead.
pub fn parting_place<K: Ord + Drop, I: Drop, const LEN: usize>(
    children: &ArrayOf<K, I, LEN>,
) -> Option<u8>
    ensures place { MatchOption result (length children.now.entries ≤ limit LEN)
        (λ place. (limit LEN < length children.now.entries) × (place < length children.now.entries)) }
    ensures rule { IfSome result (λ place. place ≡ (boundary K.cmp LEN children.now).0) }
    ensures sound { IsSound K.cmp LEN children.now }
{
    let (boundary, _, _) = children.optimal_boundary();
    if boundary as usize == LEN {
        None
    } else {
        Some(boundary)
    }
}

/// Puts a child under its separator. Makes one comparison if the separator is larger than all, else
/// at most 5 (4 among 7 slots). The caller must pass a separator that is new in an array with room.
pub fn put_keyed<K: Ord + Drop, I: Drop, const LEN: usize>(
    children: &mut ArrayOf<K, I, LEN>,
    separator: K,
    child: I,
)
    requires absent { IsAbsent K.cmp children.old.entries separator }
    requires room { HasRoom LEN children.old }
    ensures put { children.new ≡ stored K.cmp children.old separator child }
    ensures few { length children.new.entries ≤ LEN }
{
    let _ = children.store_beyond::<false>(true, separator, child);
}
