//! The two files of a store.
ghost use Rattle.std.specs.Prelude.{◌≡◌, Bool};
ghost use Rattle.store_pair.specs.Pair.{files_in};

use sqlite_disk::Disk;

/// The two files of a store. The log of one of them counts, and the next compaction writes over the
/// other.
#[derive(Drop)]
pub struct Files<D: Disk> {
    /// The file in which a new store begins.
    pub first: D,
    /// The other file.
    pub second: D,
}

impl<D: Disk> Files<D> {
    // Returns the files, of which the second counts or the first.
    pub(crate) fn of(swapped: bool, disk: D, spare: D) -> Self
        ensures { result ≡ files_in swapped disk spare }
    {
        if swapped {
            Files {
                first: spare,
                second: disk,
            }
        } else {
            Files {
                first: disk,
                second: spare,
            }
        }
    }

    // Returns the file that counts, and the other one.
    pub(crate) fn in_order(self, swapped: bool) -> (D, D)
        ensures { self ≡ files_in swapped result.0 result.1 }
    {
        let Files { first, second } = self;
        if swapped {
            (second, first)
        } else {
            (first, second)
        }
    }
}
