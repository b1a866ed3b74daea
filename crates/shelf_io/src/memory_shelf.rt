//! A shelf in memory, which fails where it is told to.
ghost use Rattle.std.specs.Prelude.{◌≡◌, ℕ, ◌+◌, ◌^◌, ◌<◌, ◌≤◌, List, [], length, MatchOption, OnOk};
ghost use Rattle.cause_defs.specs.Told.{absent, told, IsWhereTold, IsFrontWhereTold};
ghost use Rattle.cause_defs.specs.Faults.{Rises};
ghost use Rattle.shelf_io.specs.Take.{OnFailed, UnlessFailed, OnTooLong, IsFailedOrNoMemory, WhereAbsent};
ghost use Rattle.shelf_io.specs.Files.{Files, Answers, after_take, file_under, fresh_files, next_file, is_listed};
ghost use Rattle.shelf_io.specs.Named.{named};

use crate::{Shelf, ShelfFault};
use std::alloc::Global;
use std::marker::Model;

/// A shelf whose files lie in memory.
///
/// It numbers its calls of `take` from 0. It fails exactly at the calls that it was told, and at a
/// name that it does not have.
#[derive(Debug, Drop)]
pub struct MemoryShelf {
    files: Vec<(String, Vec<u8>)>,
    fail: Vec<u32>,
    calls: u64,
    faults: u64,
    last_failed: Option<String>,
}

impl Model for MemoryShelf {
    ghost use Rattle.std.specs.Prelude.{◌^◌, ◌<◌};
    ghost use Rattle.shelf_io.specs.Files.{Files};

    ghost Value = { Files };

    ghost use Rattle.shelf_io.specs.Named.{named, told_if_some};

    ghost view = { λ s. record {
      files = named s.files.items;
      fail = s.fail.items;
      calls = s.calls;
      faults = s.faults;
      last_failed = told_if_some s.last_failed;
    } };

    ghost invariant = { λ s. s.faults < 2 ^ 64 };
}

impl MemoryShelf {
    /// A shelf of which nothing was taken. Each of `files` has a name and its bytes, and of two
    /// files of one name the first counts. The calls whose numbers are in `fail` fail.
    pub fn new(files: Vec<(String, Vec<u8>)>, fail: Vec<u32>) -> MemoryShelf
        ensures { result ≡ fresh_files (named files.items) fail.items }
    {
        MemoryShelf {
            files,
            fail,
            calls: 0,
            faults: 0,
            last_failed: None,
        }
    }
}

impl Shelf for MemoryShelf {
    ghost file = { λ s name. file_under s.files name };

    ghost faults = { λ s. s.faults };

    ghost last_failed = { λ s. s.last_failed };

    /// Before it answers `Failed` it copies the name: where memory for that is short it answers
    /// `NoMemory` instead.
    fn take(&mut self, name: &str, limit: usize, into: &mut Vec<u8>) -> Result<(), ShelfFault>
        requires empty { into.old.items ≡ [] }

        // The state after the call, and exactly which answers come.
        ensures after { self.new ≡ after_take self.old name.now result }
        ensures answers { Answers result (next_file self.old name.now) limit into.new.items }

        // What each shelf promises.
        ensures ok_limit { OnOk result (length into.new.items ≤ limit) }
        ensures ok_bytes { OnOk result (IsWhereTold (file_under self.old.files name.now) into.new.items) }
        ensures too_long_limit { OnTooLong result (length into.new.items ≡ limit + 1) }
        ensures too_long_bytes { OnTooLong result (IsFrontWhereTold (file_under self.old.files name.now) (limit + 1) into.new.items) }
        ensures failed { OnFailed result (Rises self.old.faults self.new.faults) }
        ensures failed_name { OnFailed result (IsWhereTold self.new.last_failed name.now) }
        ensures missing { WhereAbsent (file_under self.old.files name.now) (IsFailedOrNoMemory result) }
        ensures others { UnlessFailed result (self.new.faults ≡ self.old.faults) }
        ensures others_name { UnlessFailed result (self.new.last_failed ≡ self.old.last_failed) }
        ensures kept { (n : List ℕ) → file_under self.new.files n ≡ file_under self.old.files n }
        ensures never_falls { self.old.faults ≤ self.new.faults }
        ensures fits { self.new.faults < 2 ^ 64 }
    {
        let listed = is_listed(&self.fail, self.calls);
        self.calls = self.calls.saturating_add(1);
        if !listed {
            if let Some(bytes) = file_under(&self.files, name) {
                return copy_up_to(bytes, limit, into);
            }
        }
        let copy = String::from_str(*self.files.allocator(), name)?;
        self.last_failed = Some(copy);
        self.faults = self.faults.saturating_add(1);
        Err(ShelfFault::Failed)
    }
}

/// Whether the call with this number is listed.
fn is_listed(fail: &[u32], call: u64) -> bool
    ensures { result ≡ is_listed fail.now call }
{
    fail.iter().any(|number| u64::from(*number) == call)
}

/// The bytes of the first file under this name.
fn file_under<'a>(files: &'a [(String, Vec<u8>)], name: &str) -> Option<&'a [u8]>
    ensures { MatchOption result (file_under (named files.now) name.now ≡ absent) (λ bytes. file_under (named files.now) name.now ≡ told bytes.now) }
{
    for (found, bytes) in files {
        if found.as_str() == name {
            return Some(bytes.as_slice());
        }
    }
    None
}

/// Copies a file that has at most `limit` bytes, and of a longer one the first `limit + 1`.
fn copy_up_to(bytes: &[u8], limit: usize, into: &mut Vec<u8>) -> Result<(), ShelfFault>
    requires { into.old.items ≡ [] }
    ensures { Answers result (told bytes.now) limit into.new.items }
{
    if bytes.len() <= limit {
        into.extend_from_slice(bytes)?;
        return Ok(());
    }
    into.extend_from_slice(&bytes[..limit + 1])?;
    Err(ShelfFault::TooLong)
}
