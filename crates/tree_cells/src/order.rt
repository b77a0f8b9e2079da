//! The order of an array: four bits of a word for each place, which name the slot of the entry
//! there. The places after the entries repeat the last name, and the place after all slots holds
//! [`BEYOND`].
ghost use Rattle.std.specs.Prelude.{◌≡◌, ℕ, List, true, false, IsTrue, Some, ◌+◌, ◌-◌, ◌<◌, ◌≤◌, [], ◌∷◌, ◌++◌, length, replicate, slice_get, slice_index_or};
ghost use Rattle.std.specs.List.{range_with_len};
ghost use Rattle.tree_cells.specs.Order.{AreSmall, inserted, is_retired, named, names, ordinal_in, packed, renamed, rises_in, taken_out, IsOrder};

/// The greatest number of slots of an array.
pub const MOST: usize = 15;

/// The name at the place after all slots.
pub const BEYOND: u8 = 15;

/// The order of an array that has lost its last entry. No other order is this one, as [`BEYOND`]
/// isn't 0.
pub const RETIRED: u64 = 0;

/// The order of an array that never had an entry.
pub const EMPTY: u64 = u64::MAX;

// Fifteen places that each hold 1.
const ONES: u64 = 0x0111_1111_1111_1111;

// Fifteen places that each name the slot of their own number.
const IN_TURN: u64 = 0x0edc_ba98_7654_3210;

/// Returns the slot that a place names.
#[inline]
pub fn slot_at(word: u64, place: u8) -> u8
    requires { place < 16 }
    ensures { result ≡ named word place }
{
    (word >> (4 * place) & 15) as u8
}

// Keeps only the first places.
fn first(word: u64, count: u8) -> u64
    requires { count ≤ 15 }
    ensures { result ≡ packed (names word count) }
{
    let bits = 4 * count;
    word - (word >> bits << bits)
}

// Puts the name of a slot at each place from `count` on, and [`BEYOND`] after all places.
fn extended<const LEN: usize>(places: u64, count: u8, slot: u8) -> u64
    requires len { LEN ≤ 15 }
    requires few { count ≤ LEN }
    requires slot { slot < 16 }
    ensures { (slots : List ℕ) → AreSmall slots → length slots ≡ count → places ≡ packed slots
        → result ≡ packed (slots ++ (replicate (LEN - count) slot ++ 15 ∷ [])) }
{
    let tail = slot as u64 * (ONES >> (60 - 4 * (LEN as u8 - count)));
    places | tail << (4 * count) | (BEYOND as u64) << (4 * LEN)
}

/// The order of the entries of an array of `LEN` slots: the word that the array keeps, and how many
/// entries it has.
#[derive(Clone, Copy)]
pub struct Order<const LEN: usize> {
    pub word: u64,
    pub count: u8,
    pub ghost whole: { IsOrder LEN word count },
}

impl<const LEN: usize> Order<LEN> {
    /// Creates the order of an array from its word and the number of its entries.
    #[inline(always)]
    pub fn new(word: u64, count: u8) -> Self
        requires { IsOrder LEN word count }
        ensures word { result.word ≡ word }
        ensures count { result.count ≡ count }
    {
        Order { word, count }
    }

    /// Creates the order of entries that are in the first slots, one after another.
    pub fn in_turn(count: u8) -> Self
        requires len { LEN ≤ 15 }
        requires few { count ≤ LEN }
        ensures count { result.count ≡ count }
        ensures names { names result.word count ≡ range_with_len 0 count }
        ensures live { is_retired result.word ≡ false }
    {
        if count == 0 {
            return Order { word: EMPTY, count };
        }
        let word = extended::<LEN>(first(IN_TURN, count), count, count - 1);
        Order { word, count }
    }

    /// Returns the slot of the entry at a place.
    #[tactic(auto, using(crate::proofs::Words::naming))]
    #[inline]
    pub fn slot_at(self, place: u8) -> u8
        requires { place < self.count }
        ensures { slice_get (names self.entry.word self.entry.count) place ≡ Some result }
    {
        slot_at(self.word, place)
    }

    /// Returns the slot of the last entry. The last place names it too, so that no shift waits for
    /// their count.
    #[inline]
    pub fn last(self) -> u8
        requires { 0 < self.count }
        ensures { slice_get (names self.entry.word self.entry.count) (self.entry.count - 1) ≡ Some result }
    {
        slot_at(self.word, LEN as u8 - 1)
    }

    /// Inserts a slot before the entries from `place` on.
    pub fn insert(self, place: u8, slot: u8) -> Self
        requires place { place ≤ self.count }
        requires room { self.count < LEN }
        requires slot { slot < 16 }
        ensures count { result.count ≡ self.entry.count + 1 }
        ensures names { names result.word (self.entry.count + 1)
            ≡ inserted place slot (names self.entry.word self.entry.count) }
    {
        Order {
            word: self.with_inserted(place, slot),
            count: self.count + 1,
        }
    }

    // Returns the word of this order with a slot inserted.
    fn with_inserted(self, place: u8, slot: u8) -> u64
        requires place { place ≤ self.count }
        requires room { self.count < LEN }
        requires slot { slot < 16 }
        ensures { (names result (self.entry.count + 1) ≡ inserted place slot (names self.entry.word self.entry.count))
            × IsOrder LEN result (self.entry.count + 1) }
    {
        if place < self.count {
            // The last name stays the last, and the places behind it repeat it still.
            let places = first(self.word, LEN as u8 - 1);
            let rest = slot as u64 | places >> (4 * place) << 4;
            extended::<LEN>(first(places, place) | rest << (4 * place), LEN as u8, slot)
        } else {
            extended::<LEN>(first(self.word, self.count), self.count, slot)
        }
    }

    /// Takes out the entry at a place. If it was the only entry, the word that is left is
    /// [`RETIRED`].
    pub fn remove(self, place: u8) -> Self
        requires { place < self.count }
        ensures count { result.count ≡ self.entry.count - 1 }
        ensures names { names result.word (self.entry.count - 1)
            ≡ taken_out place (names self.entry.word self.entry.count) }
        ensures retired { self.entry.count ≡ 1 → is_retired result.word ≡ true }
    {
        let last = self.count - 1;
        if last == 0 {
            return Order {
                word: RETIRED,
                count: last,
            };
        }
        Order {
            word: self.with_removed(place),
            count: last,
        }
    }

    // Returns the word of this order without the entry at a place, which isn't the only one.
    fn with_removed(self, place: u8) -> u64
        requires place { place < self.count }
        requires others { 1 < self.count }
        ensures { (names result (self.entry.count - 1) ≡ taken_out place (names self.entry.word self.entry.count))
            × IsOrder LEN result (self.entry.count - 1) }
    {
        let last = self.count - 1;
        if place == last {
            return extended::<LEN>(first(self.word, last), last, slot_at(self.word, last - 1));
        }
        let places = first(self.word, LEN as u8);
        let rest = places >> (4 * place) >> 4;
        extended::<LEN>(
            first(places, place) | rest << (4 * place),
            LEN as u8 - 1,
            self.last(),
        )
    }

    /// Names another slot at a place.
    pub fn rename(self, place: u8, slot: u8) -> Self
        requires place { place < self.count }
        requires slot { slot < 16 }
        ensures count { result.count ≡ self.entry.count }
        ensures names { names result.word self.entry.count
            ≡ renamed place slot (names self.entry.word self.entry.count) }
    {
        Order {
            word: self.with_renamed(place, slot),
            count: self.count,
        }
    }

    // Returns the word of this order with another slot at a place.
    fn with_renamed(self, place: u8, slot: u8) -> u64
        requires place { place < self.count }
        requires slot { slot < 16 }
        ensures { (names result self.entry.count ≡ renamed place slot (names self.entry.word self.entry.count))
            × IsOrder LEN result self.entry.count }
    {
        if place == self.count - 1 {
            return extended::<LEN>(first(self.word, place), place, slot);
        }
        let places = first(self.word, LEN as u8);
        let rest = slot as u64 | places >> (4 * place) >> 4 << 4;
        extended::<LEN>(first(places, place) | rest << (4 * place), LEN as u8, slot)
    }

    /// Returns the place of the entry in a slot, by a walk over the places. The caller must name
    /// the slot of an entry.
    #[tactic(auto, using(crate::proofs::Words::naming))]
    pub fn place_of(self, slot: u8) -> u8
        requires { (i : ℕ) × (slice_get (names self.word self.count) i ≡ Some slot) }
        ensures { slice_get (names self.entry.word self.entry.count) result ≡ Some slot }
    {
        for place in 0..self.count {
            if slot_at(self.word, place) == slot {
                return place;
            }
        }
        unreachable!()
    }

    /// Returns the ordinal of each slot: one more than its place, or 0 if no place names it.
    pub fn ordinals(self) -> [u8; MOST]
        requires within { (i : ℕ) → i < self.count → named self.word i < 15 }
        ensures whole { length result ≡ 15 }
        ensures ordinals { (p : ℕ) → p < 15
            → slice_index_or result p 0 ≡ ordinal_in (named self.entry.word) self.entry.count p }
    {
        let mut ordinals = [0; MOST];
        // The word is shifted by one place a step, so that no shift waits for the number of the
        // place.
        let mut rest = self.word;
        for place in 0..self.count {
            ordinals[slot_at(rest, 0) as usize] = place + 1;
            rest >>= 4;
        }
        ordinals
    }

    /// Counts the slots that have a higher ordinal than the last slot before them that has one.
    pub fn count_rises(self, made: u8) -> u8
        requires within { (i : ℕ) → i < self.count → named self.word i < 15 }
        requires made { made ≤ 15 }
        ensures rises { result ≡ rises_in (ordinal_in (named self.entry.word) self.entry.count) made }
        ensures few { result ≤ made }
    {
        if self.count > 0 && self.count == made && is_in_turn(self.word, made) {
            return made - 1;
        }
        let ordinals = self.ordinals();
        let mut rises = 0;
        let mut previous = MOST as u8;
        for slot in 0..made {
            let ordinal = ordinals[slot as usize];
            if previous < ordinal {
                rises += 1;
            }
            if ordinal > 0 {
                previous = ordinal;
            }
        }
        rises
    }
}

// Returns whether the entries are in the first slots, one after another, as those that arrived in
// ascending order are.
fn is_in_turn(word: u64, count: u8) -> bool
    requires { count ≤ 15 }
    ensures { IsTrue result → (i : ℕ) → i < count → named word i ≡ i }
{
    first(word, count) == first(IN_TURN, count)
}
