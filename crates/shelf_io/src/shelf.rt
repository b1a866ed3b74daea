//! Files by name, each taken whole.
ghost use Rattle.std.specs.Prelude.{◌≡◌, ℕ, ◌+◌, ◌^◌, ◌<◌, ◌≤◌, List, [], length, OnOk};
ghost use Rattle.cause_defs.specs.Told.{Told, IsWhereTold, IsFrontWhereTold};
ghost use Rattle.cause_defs.specs.Faults.{Rises};
ghost use Rattle.shelf_io.specs.Take.{OnFailed, UnlessFailed, OnTooLong, IsFailedOrNoMemory, WhereAbsent};
ghost use Rattle.shelf_io.specs.declared.shelf.ShelfFault.TheVariants.{NoMemory};

use std::alloc::AllocError;

/// Why a `take` gave no file.
#[derive(Clone, Copy, Debug, PartialEq, Eq)]
pub enum ShelfFault {
    /// The file is not there, or reading it failed.
    Failed,
    /// The file has more bytes than were allowed.
    TooLong,
    /// Memory was short.
    NoMemory,
}

impl From<AllocError> for ShelfFault {
    ghost from_gives = { λ _ fault. fault ≡ NoMemory };

    fn from(_: AllocError) -> ShelfFault {
        ShelfFault::NoMemory
    }
}

/// Files by name, of which each is taken whole. No call changes a file.
pub trait Shelf {
    /// What is told of the file under a name, given by its bytes.
    ghost file: { Self → List ℕ → Told (List ℕ) };

    /// How often a `take` has failed.
    ghost faults: { Self → ℕ };

    /// The name of the last `take` that failed: `absent` while none has.
    ghost last_failed: { Self → Told (List ℕ) };

    /// Reads the file under `name` into `into`, with memory from the allocator that `into` keeps.
    /// After `Failed` or `NoMemory` the contents of `into` are open.
    fn take(&mut self, name: &str, limit: usize, into: &mut Vec<u8>) -> Result<(), ShelfFault>
        requires empty { into.old.items ≡ [] }

        // Ok gives the whole file, of at most `limit` bytes.
        ensures ok_limit { OnOk result (length into.new.items ≤ limit) }
        ensures ok_bytes { OnOk result (IsWhereTold (file self.old name.now) into.new.items) }

        // TooLong comes only where the file has more bytes, and gives one more than the limit.
        ensures too_long_limit { OnTooLong result (length into.new.items ≡ limit + 1) }
        ensures too_long_bytes { OnTooLong result (IsFrontWhereTold (file self.old name.now) (limit + 1) into.new.items) }

        // Failed comes only where the count rose, and at a name that is not there.
        ensures failed { OnFailed result (Rises (faults self.old) (faults self.new)) }
        ensures failed_name { OnFailed result (IsWhereTold (last_failed self.new) name.now) }
        ensures missing { WhereAbsent (file self.old name.now) (IsFailedOrNoMemory result) }

        // Every other answer leaves the count and the last failed name.
        ensures others { UnlessFailed result (faults self.new ≡ faults self.old) }
        ensures others_name { UnlessFailed result (last_failed self.new ≡ last_failed self.old) }

        // At every answer the files stay, and the count does not fall and stays below 2^64.
        ensures kept { (n : List ℕ) → file self.new n ≡ file self.old n }
        ensures never_falls { faults self.old ≤ faults self.new }
        ensures fits { faults self.new < 2 ^ 64 };
}
