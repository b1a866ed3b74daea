//! Standard output.
ghost use Rattle.std.specs.Prelude.{◌≡◌, if◌then◌else◌, is_err};
ghost use Rattle.shelf_io.specs.Counting.{count_up};

use crate::waiting::Waiting;
use crate::{Failed, Sink};
use std::io::Printer;
use std::marker::Model;
use std::{fmt, io};

/// Standard output, in long pieces: bytes wait until there are many of them or `flush` is called.
/// What waits when it is dropped is not printed.
///
/// Contracts see it as the number of its faults. It tells no bytes. After a call that failed it
/// prints nothing more, and each later call fails.
#[derive(Drop)]
pub struct OutSink<'a, R> {
    out: Waiting<Printer<'a, R>>,
    faults: u64,
}

impl<'a, R> Model for OutSink<'a, R> {
    ghost use Rattle.std.specs.Prelude.{ℕ, ◌^◌, ◌<◌};

    ghost Value = { ℕ };

    ghost view = { λ s. s.faults };

    ghost invariant = { λ s. s.faults < 2 ^ 64 };
}

impl<'a, R> fmt::Debug for OutSink<'a, R> {
    fn fmt<W: fmt::Write>(&self, f: &mut fmt::Formatter<W>) -> fmt::Result {
        write!(f, "OutSink {{ faults: {} }}", self.faults)
    }
}

impl<'a, R: Print> OutSink<'a, R> {
    /// The standard output of `rt`, to which nothing was written yet.
    pub fn new(rt: &'a R) -> OutSink<'a, R>
        ensures { result ≡ 0 }
    {
        OutSink {
            out: Waiting::new(io::writer(rt)),
            faults: 0,
        }
    }
}

impl<'a, R: Print> Sink for OutSink<'a, R> {
    ghost use Rattle.std.specs.Prelude.{None, true};

    ghost written = { λ _. None };

    ghost flushed = { λ _. 0 };

    ghost faults = { λ s. s };

    ghost counts_failures_alone = { λ _. true };

    fn write(&mut self, bytes: &[u8]) -> Result<(), Failed> {
        let answer = self.out.write(bytes);
        self.faults = counted(self.faults, answer);
        answer
    }

    fn flush(&mut self) -> Result<(), Failed> {
        let answer = self.out.flush();
        self.faults = counted(self.faults, answer);
        answer
    }
}

/// The number of faults after this answer.
fn counted(faults: u64, answer: Result<(), Failed>) -> u64
    ensures { result ≡ (if is_err answer then count_up faults else faults) }
{
    match answer {
        Ok(()) => faults,
        Err(Failed) => faults.saturating_add(1),
    }
}
