//! `sf_count round RANKS ASKS WORDS` runs one round, in which each of so many ranks asks so often of so
//! many words, and prints numbers mixed from what was fetched and from the printed order.
//! `sf_count threads RANKS ASKS WORDS` runs the same round with a thread for each rank; what it prints
//! depends on how they meet.
//! `sf_count forest LEAVES` makes a star forest of four ranks with so many leaves on each, and prints a
//! number mixed from its degrees. `sf_count made LEAVES` makes one whose roots have one leaf each, `compose`
//! composes it with itself, `invert` inverts it; they print a number mixed from the leaves.
//!
//! It makes the speed and the memory of rounds and forests visible. Its exit status is that of
//! [`Trouble`], or 0.
#![tactic(auto)]

mod algebra;
mod forest;
mod round;
mod trouble;
mod wanted;

use algebra::{composed_text, inverted_text, made_text};
use forest::forest_text;
use round::round_text;
use sf_fabric::script::ScriptFabric;
use sf_threads::{NoGate, ThreadFabric};
use shelf_io::{OutSink, Sink};
use std::env;
use std::io::{self, ErrorKind};
use std::process::ExitCode;
use std::rt::Env;
use std::thread::Threads;
use trouble::Trouble;
use wanted::{Wanted, read_wanted};

/// Words that can't be read are refused ones.
fn unread(error: &io::Error) -> Trouble {
    match error.kind() {
        ErrorKind::OutOfMemory => Trouble::Memory,
        _ => Trouble::Words,
    }
}

fn run<R: Env + Print + AllocGlobal + Threads>(rt: &R) -> Result<(), Trouble> {
    let alloc = rt.alloc();
    let words: Vec<String> = env::args(rt)
        .map_err(|e| unread(&e))?
        .skip(1)
        .collect(alloc)?;
    let text = match read_wanted(&words)? {
        Wanted::Round(size) => {
            let mut fabric = ScriptFabric::new(Vec::new(alloc));
            round_text(alloc, &mut fabric, size)?
        }
        Wanted::Threads(size) => {
            let mut fabric = ThreadFabric::new(rt, alloc, NoGate);
            round_text(alloc, &mut fabric, size)?
        }
        Wanted::Forest { leaves } => forest_text(alloc, leaves)?,
        Wanted::Made { leaves } => made_text(alloc, leaves)?,
        Wanted::Composed { leaves } => composed_text(alloc, leaves)?,
        Wanted::Inverted { leaves } => inverted_text(alloc, leaves)?,
    };
    let mut out = OutSink::new(rt);
    out.write(text.as_bytes())?;
    out.flush()?;
    Ok(())
}

fn main(rt: HostRuntime) -> ExitCode {
    match run(&rt) {
        Ok(()) => ExitCode::SUCCESS,
        Err(trouble) => ExitCode::from(trouble.code()),
    }
}
