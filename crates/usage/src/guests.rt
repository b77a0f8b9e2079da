//! Guests: an ordered set of those who are invited, and one of those who have answered.
ghost use Rattle.std.specs.Prelude.{◌≡◌, ℕ, true, false, IfSome, IfNone};
ghost use Rattle.std.specs.Option.{option_copied};
ghost use Rattle.std.specs.Ordering.{nat_cmp};
ghost use Rattle.tree_set.specs.Sets.{Inserts, element_at, has};

use tree_set::TreeSet;

/// Invites a guest. Returns whether the guest was not invited yet.
///
/// Returns `Err` with the guest if an allocation is refused.
pub fn invite(invited: &mut TreeSet<u64>, guest: u64) -> Result<bool, u64>
    ensures { Inserts nat_cmp invited.old guest result invited.new }
{
    invited.insert(guest)
}

/// Returns the invitation of a guest, as it is stored.
pub fn invitation(invited: &TreeSet<u64>, guest: u64) -> Option<&u64>
    ensures { option_copied result ≡ element_at nat_cmp invited.now guest }
{
    invited.get(&guest)
}

/// Returns the first guest who is invited and hasn't answered, or `None` if all have.
pub fn next_to_ask(invited: &TreeSet<u64>, answered: &TreeSet<u64>) -> Option<u64>
    ensures silent { IfSome result
        (λ guest. (has nat_cmp invited.now guest ≡ true) × (has nat_cmp answered.now guest ≡ false)) }
    ensures all { IfNone result
        ((guest : ℕ) → has nat_cmp invited.now guest ≡ true → has nat_cmp answered.now guest ≡ true) }
{
    invited.difference(answered).next().copied()
}
