//! A writer that collects short pieces into long ones.
ghost use Rattle.std.specs.Prelude.{◌≤◌, length, take};
ghost use Rattle.std.specs.Io.{WritesAtMost};
ghost use Rattle.shelf_io.specs.declared.waiting.TheConstants.{ROOM};
ghost use Rattle.std.specs.Io.KnownBytes.{Appends, WriteAppends};

use crate::Failed;
use std::io;
use std::io::{ErrorKind, Write};

/// How many bytes wait at most.
const ROOM: usize = 32768;

/// Collects bytes in place, and hands them on to `writer` in order.
///
/// After a call that failed it hands on nothing more, and each later call fails.
#[derive(Drop)]
pub(crate) struct Waiting<W> {
    writer: W,
    room: [u8; ROOM],
    start: usize,
    end: usize,
    broken: bool,
    ghost in_range: { (start ≤ end) × (end ≤ ROOM) },
}

impl<W: Write> Waiting<W> {
    ghost use Rattle.std.specs.Prelude.{◌≡◌, ◌+◌, ◌≤◌, [], ◌++◌, true, false, length, is_err, OnOk};
    ghost use Rattle.shelf_io.specs.Known.{PrintsWhereKnown, StayWhereKnown};
    ghost use Rattle.shelf_io.specs.Waits.{bytes_given, waits};

    /// A writer before which nothing waits.
    pub(crate) fn new(writer: W) -> Waiting<W>
        ensures writer { result.writer ≡ writer }
        ensures waits { waits result ≡ [] }
        ensures broken { result.broken ≡ false }
    {
        Waiting {
            writer,
            room: [0; ROOM],
            start: 0,
            end: 0,
            broken: false,
        }
    }

    /// Takes `bytes`, and hands on what waits where there is no room for them.
    pub(crate) fn write(&mut self, bytes: &[u8]) -> Result<(), Failed>
        // Ok has taken the bytes, and Failed some of them, from their beginning.
        ensures prints { PrintsWhereKnown result (bytes_given W.contents self.old) (bytes_given W.contents self.new) bytes.now }

        // Each call after one that failed fails too, and hands on nothing.
        ensures broken { self.new.broken ≡ is_err result }
        ensures stuck { self.old.broken ≡ true → (result ≡ Err record {}) × (self.new.writer ≡ self.old.writer) }
    {
        if self.broken {
            return Err(Failed);
        }
        if bytes.len() > ROOM - self.end {
            self.hand_on_waiting()?;
        }
        if bytes.len() <= ROOM - self.end {
            self.keep(bytes);
            return Ok(());
        }
        if hand_on(&mut self.writer, bytes) < bytes.len() {
            self.broken = true;
            return Err(Failed);
        }
        Ok(())
    }

    /// Hands on what waits, and flushes the writer.
    pub(crate) fn flush(&mut self) -> Result<(), Failed>
        // No answer changes what was given, and after Ok nothing waits.
        ensures bytes { StayWhereKnown (bytes_given W.contents self.old) (bytes_given W.contents self.new) }
        ensures ok { OnOk result (waits self.new ≡ []) }

        // Each call after one that failed fails too, and hands on nothing.
        ensures broken { self.new.broken ≡ is_err result }
        ensures stuck { self.old.broken ≡ true → (result ≡ Err record {}) × (self.new.writer ≡ self.old.writer) }
    {
        if self.broken {
            return Err(Failed);
        }
        self.hand_on_waiting()?;
        if self.writer.flush().is_err() {
            self.broken = true;
            return Err(Failed);
        }
        Ok(())
    }

    /// Hands on what waits, and keeps what the writer did not take.
    fn hand_on_waiting(&mut self) -> Result<(), Failed>
        requires { self.old.broken ≡ false }
        ensures bytes { StayWhereKnown (bytes_given W.contents self.old) (bytes_given W.contents self.new) }
        ensures ok { OnOk result ((self.new.end ≡ 0) × (self.new.start ≡ 0)) }
        ensures broken { self.new.broken ≡ is_err result }
    {
        let waiting: &[u8] = &self.room;
        let done = hand_on(&mut self.writer, &waiting[self.start..self.end]);
        if done < self.end - self.start {
            self.start += done;
            self.broken = true;
            return Err(Failed);
        }
        self.start = 0;
        self.end = 0;
        Ok(())
    }

    /// Adds bytes to those that wait.
    fn keep(&mut self, bytes: &[u8])
        requires { self.old.end + length bytes.now ≤ ROOM }
        ensures writer { self.new.writer ≡ self.old.writer }
        ensures waits { waits self.new ≡ waits self.old ++ bytes.now }
        ensures broken { self.new.broken ≡ self.old.broken }
    {
        let end = self.end + bytes.len();
        self.room[self.end..end].copy_from_slice(bytes);
        self.end = end;
    }
}

/// Hands bytes on until the writer fails or takes none, and answers how many it took.
#[tactic(auto, using(crate::proofs::Handing::appends_front))]
fn hand_on<W: Write>(writer: &mut W, bytes: &[u8]) -> usize
    ensures bound { result ≤ length bytes.now }
    ensures bytes { Appends (W.contents writer.old) (W.contents writer.new) (take result bytes.now) }
{
    let mut done = 0;
    while done < bytes.len() {
        match write_some(writer, &bytes[done..]) {
            Ok(taken) if taken > 0 => done += taken,
            _ => return done,
        }
    }
    done
}

/// One write, tried again while a signal cuts it short.
fn write_some<W: Write>(writer: &mut W, bytes: &[u8]) -> io::Result<usize>
    ensures bound { WritesAtMost result bytes.now }
    ensures bytes { WriteAppends (W.contents writer.old) (W.contents writer.new) result bytes.now }
{
    for _ in 0..u64::MAX {
        match writer.write(bytes) {
            Err(fault) if fault.kind() == ErrorKind::Interrupted => {}
            answer => return answer,
        }
    }
    Err(io::Error::from(ErrorKind::Interrupted))
}

#[cfg(test)]
mod tests;
