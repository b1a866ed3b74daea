//! The files of the working folder.
ghost use Rattle.std.specs.Prelude.{◌≡◌, ℕ, ◌+◌, ◌^◌, ◌<◌, ◌≤◌, [], length, OnOk};
ghost use Rattle.cause_defs.specs.Told.{untold};
ghost use Rattle.shelf_io.specs.Take.{OnTooLong};

use crate::reading::read_up_to;
use crate::{Shelf, ShelfFault};
use std::marker::Model;
use std::rt::Files;
use std::{fmt, fs};

/// The files of the working folder, by their paths from there.
///
/// Contracts see it as the number of its faults. It tells nothing of the files, nor of the name
/// of the last `take` that failed.
#[derive(Drop)]
pub struct FolderShelf<'a, R> {
    rt: &'a R,
    faults: u64,
}

impl<'a, R> Model for FolderShelf<'a, R> {
    ghost use Rattle.std.specs.Prelude.{ℕ, ◌^◌, ◌<◌};

    ghost Value = { ℕ };

    ghost view = { λ s. s.faults };

    ghost invariant = { λ s. s.faults < 2 ^ 64 };
}

impl<'a, R> fmt::Debug for FolderShelf<'a, R> {
    fn fmt<W: fmt::Write>(&self, f: &mut fmt::Formatter<W>) -> fmt::Result {
        write!(f, "FolderShelf {{ faults: {} }}", self.faults)
    }
}

impl<'a, R: Files> FolderShelf<'a, R> {
    /// The working folder of `rt`, of which nothing was taken yet.
    pub fn new(rt: &'a R) -> FolderShelf<'a, R>
        ensures { result ≡ 0 }
    {
        FolderShelf { rt, faults: 0 }
    }
}

impl<'a, R: Files> Shelf for FolderShelf<'a, R> {
    ghost file = { λ _ _. untold };

    ghost faults = { λ s. s };

    ghost last_failed = { λ _. untold };

    fn take(&mut self, name: &str, limit: usize, into: &mut Vec<u8>) -> Result<(), ShelfFault> {
        let answer = read_file(self.rt, name, limit, into);
        if let Err(ShelfFault::Failed) = answer {
            self.faults = self.faults.saturating_add(1);
        }
        answer
    }
}

/// Reads the file with this path. All that the system refuses is `Failed`.
fn read_file<R: Files>(
    rt: &R,
    path: &str,
    limit: usize,
    into: &mut Vec<u8>,
) -> Result<(), ShelfFault>
    requires { into.old.items ≡ [] }
    ensures ok_limit { OnOk result (length into.new.items ≤ limit) }
    ensures too_long_limit { OnTooLong result (length into.new.items ≡ limit + 1) }
{
    match fs::open(rt, path) {
        Ok(mut file) => read_up_to(&mut file, limit, into),
        Err(_) => Err(ShelfFault::Failed),
    }
}
