//! Bytes that are written one after another.
ghost use Rattle.std.specs.Prelude.{◌≡◌, ℕ, ◌^◌, ◌<◌, ◌≤◌, Bool, true, List, Option, OnOk, OnErr};
ghost use Rattle.cause_defs.specs.Faults.{Rises};
ghost use Rattle.cause_defs.specs.Written.{Prints, AreFlushed};

use cause_defs::Failed;

/// What takes bytes one after another, and flushes them. No call changes whether it tells its bytes,
/// nor whether it counts failures alone.
pub trait Sink {
    /// The bytes that were written, where they are told.
    ghost written: { Self → Option (List ℕ) };

    /// How many of them are flushed.
    ghost flushed: { Self → ℕ };

    /// How often a call has failed.
    ghost faults: { Self → ℕ };

    /// Whether it counts at a failure alone, and never at an Ok.
    ghost counts_failures_alone: { Self → Bool };

    /// Writes `bytes` after what was written before.
    fn write(&mut self, bytes: &[u8]) -> Result<(), Failed>
        // Ok has added the bytes, and Failed some of them, from their beginning.
        ensures prints { Prints result (written self.old) (written self.new) bytes.now }
        ensures flushed_stay { flushed self.new ≡ flushed self.old }

        // Failed comes only where the count rose, which never falls and stays below 2^64.
        ensures failed { OnErr result (Rises (faults self.old) (faults self.new)) }
        ensures never_falls { faults self.old ≤ faults self.new }
        ensures fits { faults self.new < 2 ^ 64 }

        // Ok leaves the count of a sink that counts failures alone.
        ensures ok_count { counts_failures_alone self.old ≡ true → OnOk result (faults self.new ≡ faults self.old) }
        ensures counts_alike { counts_failures_alone self.new ≡ counts_failures_alone self.old };

    /// Flushes all that was written.
    fn flush(&mut self) -> Result<(), Failed>
        // No answer changes the bytes. Ok has flushed all of them, and Failed no more than were.
        ensures written_stay { written self.new ≡ written self.old }
        ensures ok { OnOk result (AreFlushed (written self.new) (flushed self.new)) }
        ensures err { OnErr result (flushed self.new ≡ flushed self.old) }

        // Failed comes only where the count rose, which never falls and stays below 2^64.
        ensures failed { OnErr result (Rises (faults self.old) (faults self.new)) }
        ensures never_falls { faults self.old ≤ faults self.new }
        ensures fits { faults self.new < 2 ^ 64 }

        // Ok leaves the count of a sink that counts failures alone.
        ensures ok_count { counts_failures_alone self.old ≡ true → OnOk result (faults self.new ≡ faults self.old) }
        ensures counts_alike { counts_failures_alone self.new ≡ counts_failures_alone self.old };
}
