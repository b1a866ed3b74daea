//! A sink in memory, which fails where it is told to.
ghost use Rattle.std.specs.Prelude.{◌≡◌, ◌^◌, ◌<◌, ◌≤◌, true, Option, Some, OnOk, OnErr, length, is_err, take};
ghost use Rattle.cause_defs.specs.Faults.{Rises};
ghost use Rattle.cause_defs.specs.Written.{Prints, AreFlushed};
ghost use Rattle.shelf_io.specs.Room.{Room, fresh_room, listed_at, after_write, write_fails, after_flush, flush_fails, most_taken};

use crate::{Failed, Sink};
use std::marker::Model;

/// A sink whose bytes lie in a room of fixed length, so that its calls take no memory.
///
/// It numbers its calls of `write` and `flush` together, from 0. It fails exactly at the calls
/// that it was told, and at a piece that does not fit into what is left of the room.
#[derive(Debug, Drop)]
pub struct MemorySink {
    room: Vec<u8>,
    used: usize,
    flushed: usize,
    fail: Vec<(u32, u32)>,
    calls: u64,
    faults: u64,
}

impl Model for MemorySink {
    ghost use Rattle.std.specs.Prelude.{◌-◌, ◌≤◌, take, length};
    ghost use Rattle.shelf_io.specs.Room.{Room};

    ghost Value = { Room };

    ghost view = { λ s. record {
      bytes = take s.used s.room.items;
      left = length s.room.items - s.used;
      flushed = s.flushed;
      fail = s.fail.items;
      calls = s.calls;
      faults = s.faults;
    } };

    ghost invariant = { λ s. s.used ≤ length s.room.items };
}

impl MemorySink {
    /// A sink with nothing written. It overwrites the bytes of `room` from the front.
    ///
    /// Each pair of `fail` is the number of a call that fails and how many bytes that call takes,
    /// if it is a write. Of two pairs of one call the first counts.
    pub fn new(room: Vec<u8>, fail: Vec<(u32, u32)>) -> MemorySink
        ensures { result ≡ fresh_room (length room.items) fail.items }
    {
        MemorySink {
            room,
            used: 0,
            flushed: 0,
            fail,
            calls: 0,
            faults: 0,
        }
    }

    /// The bytes that were written.
    pub fn bytes(&self) -> &[u8]
        ensures { result.now ≡ self.now.bytes }
    {
        &self.room[..self.used]
    }

    /// How many of the bytes are flushed.
    pub fn flushed(&self) -> usize
        ensures { result ≡ self.now.flushed }
    {
        self.flushed
    }
}

impl Sink for MemorySink {
    ghost written = { λ s. Some s.bytes };

    ghost flushed = { λ s. s.flushed };

    ghost faults = { λ s. s.faults };

    ghost counts_failures_alone = { λ _. true };

    fn write(&mut self, bytes: &[u8]) -> Result<(), Failed>
        // The state after the call, and exactly where it fails.
        ensures after { self.new ≡ after_write self.old bytes.now }
        ensures fails { is_err result ≡ write_fails self.old bytes.now }

        // What each sink promises.
        ensures prints { Prints result (Some self.old.bytes) (Some self.new.bytes) bytes.now }
        ensures flushed_stay { self.new.flushed ≡ self.old.flushed }
        ensures failed { OnErr result (Rises self.old.faults self.new.faults) }
        ensures never_falls { self.old.faults ≤ self.new.faults }
        ensures fits { self.new.faults < 2 ^ 64 }
        ensures ok_count { true ≡ true → OnOk result (self.new.faults ≡ self.old.faults) }
        ensures counts_alike { true ≡ true }
    {
        let listed = listed_at(&self.fail, self.calls);
        let left = self.room.len() - self.used;
        let most = most_taken(bytes.len(), listed).min(left);
        self.room[self.used..self.used + most].copy_from_slice(&bytes[..most]);
        self.used += most;
        self.calls = self.calls.saturating_add(1);
        if listed.is_some() || left < bytes.len() {
            self.faults = self.faults.saturating_add(1);
            return Err(Failed);
        }
        Ok(())
    }

    fn flush(&mut self) -> Result<(), Failed>
        // The state after the call, and exactly where it fails.
        ensures after { self.new ≡ after_flush self.old }
        ensures fails { is_err result ≡ flush_fails self.old }

        // What each sink promises.
        ensures written_stay { Some self.new.bytes ≡ Some self.old.bytes }
        ensures ok { OnOk result (AreFlushed (Some self.new.bytes) self.new.flushed) }
        ensures err { OnErr result (self.new.flushed ≡ self.old.flushed) }
        ensures failed { OnErr result (Rises self.old.faults self.new.faults) }
        ensures never_falls { self.old.faults ≤ self.new.faults }
        ensures fits { self.new.faults < 2 ^ 64 }
        ensures ok_count { true ≡ true → OnOk result (self.new.faults ≡ self.old.faults) }
        ensures counts_alike { true ≡ true }
    {
        let listed = listed_at(&self.fail, self.calls);
        self.calls = self.calls.saturating_add(1);
        if listed.is_some() {
            self.faults = self.faults.saturating_add(1);
            return Err(Failed);
        }
        self.flushed = self.used;
        Ok(())
    }
}

/// How many bytes the call with this number takes, if it is listed.
fn listed_at(fail: &[(u32, u32)], call: u64) -> Option<u32>
    ensures { result ≡ listed_at fail.now call }
{
    for &(number, bytes) in fail {
        if u64::from(number) == call {
            return Some(bytes);
        }
    }
    None
}

/// How many bytes of a piece a call takes, where there is room.
fn most_taken(piece: usize, listed: Option<u32>) -> usize
    ensures { result ≡ most_taken piece listed }
{
    match listed {
        Some(bytes) => piece.min(bytes as usize),
        None => piece,
    }
}
