//! Reading a whole file up to a limit.
ghost use Rattle.std.specs.Prelude.{◌≡◌, ◌+◌, ◌≤◌, [], length, OnOk};
ghost use Rattle.std.specs.Io.KnownBytes.{ReadConsumes};
ghost use Rattle.std.specs.Io.{ReadsAtMost};
ghost use Rattle.cause_defs.specs.Told.{IsWhereTold, IsFrontWhereTold};
ghost use Rattle.shelf_io.specs.Known.{told_if_known};
ghost use Rattle.shelf_io.specs.Take.{OnTooLong};

use crate::ShelfFault;
use std::io;
use std::io::{ErrorKind, Read};

/// The most bytes of one read.
const CHUNK: usize = 65536;

/// Reads to the end of `file`, and of more than `limit` bytes the first `limit + 1`.
pub(crate) fn read_up_to<F: Read>(
    file: &mut F,
    limit: usize,
    into: &mut Vec<u8>,
) -> Result<(), ShelfFault>
    requires { into.old.items ≡ [] }
    ensures ok_limit { OnOk result (length into.new.items ≤ limit) }
    ensures ok_bytes { OnOk result (IsWhereTold (told_if_known (F.remaining file.old)) into.new.items) }
    ensures too_long_limit { OnTooLong result (length into.new.items ≡ limit + 1) }
    ensures too_long_bytes { OnTooLong result (IsFrontWhereTold (told_if_known (F.remaining file.old)) (limit + 1) into.new.items) }
{
    let mut chunk = [0; CHUNK];
    loop {
        let most = (limit - into.len()).saturating_add(1).min(CHUNK);
        let Ok(got) = read_some(file, &mut chunk[..most]) else {
            return Err(ShelfFault::Failed);
        };
        if got == 0 {
            return Ok(());
        }
        into.extend_from_slice(&chunk[..got])?;
        if into.len() > limit {
            return Err(ShelfFault::TooLong);
        }
    }
}

/// One read, tried again while a signal cuts it short.
fn read_some<F: Read>(file: &mut F, chunk: &mut [u8]) -> io::Result<usize>
    ensures bound { ReadsAtMost result chunk.new }
    ensures bytes { ReadConsumes (F.remaining file.old) (F.remaining file.new) result chunk.new }
{
    for _ in 0..u64::MAX {
        match file.read(chunk) {
            Err(fault) if fault.kind() == ErrorKind::Interrupted => {}
            answer => return answer,
        }
    }
    Err(io::Error::from(ErrorKind::Interrupted))
}

#[cfg(test)]
mod tests;
