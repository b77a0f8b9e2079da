//! How the value of a cell is changed in place.
ghost use Rattle.std.specs.Prelude.{◌≡◌, IsSome, Some, slice_set};
ghost use Rattle.std.specs.Option.{ForSome};
ghost use Rattle.tree_cells.specs.Arrivals.{arrival};

use super::Cells;

impl<K, V, const LEN: usize> Cells<K, V, LEN> {
    /// Passes the value of a cell to a function, and puts what it returns into the cell. The caller
    /// must name a cell that holds a pair.
    pub fn change<F: FnOnce(V) -> V + Drop>(&mut self, cell: u8, change: F)
        requires pair { IsSome (arrival self.old.pairs cell) }
        requires callable { ForSome (arrival self.old.pairs cell) (λ pair. F.pre change pair.1) }
        ensures pairs { (key : K) × (before after : V) × (arrival self.old.pairs cell ≡ Some (key, before))
            × F.post change before after × (self.new.pairs ≡ slice_set self.old.pairs cell (Some (key, after))) }
        ensures counts { self.new.counts ≡ self.old.counts }
    {
        match &mut self.rows {
            Some(rows) => {
                let val = change(rows.vals.take(cell as usize));
                rows.vals.put(cell as usize, val);
            }
            None => unreachable!(),
        }
    }
}
