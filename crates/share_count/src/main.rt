//! `share_count KIND N RANKS` makes the mesh of that kind and size, gives its cells to so many ranks in
//! blocks, and prints how many points the ranks have and how many leaves the forest of shared points has.
//! `share_count KIND N drawn` makes the whole distribution of the mesh on one rank, and prints how many points
//! its diagram has; `share_count KIND N made` makes the mesh alone, and prints how many cells it has.
//!
//! It makes the speed and the memory of seeding, sharing and orienting visible. Its exit status is that of
//! [`Trouble`], or 0.
#![tactic(auto)]

mod counting;
mod trouble;
mod wanted;

use counting::{drawn_text, made_text, shared_text};
use mesh_make::make;
use sf_threads::{NoGate, ThreadFabric};
use shelf_io::{OutSink, Sink};
use std::env;
use std::io::{self, ErrorKind};
use std::process::ExitCode;
use std::rt::Env;
use std::thread::Threads;
use trouble::Trouble;
use wanted::{Wanted, read_wanted};

/// Words that can't be read are refused ones.
fn unread(error: &io::Error) -> Trouble {
    match error.kind() {
        ErrorKind::OutOfMemory => Trouble::Memory,
        _ => Trouble::Words,
    }
}

fn run<R: Env + Print + AllocGlobal + Threads + Sync>(rt: &R) -> Result<(), Trouble> {
    let alloc = rt.alloc();
    let words: Vec<String> = env::args(rt)
        .map_err(|e| unread(&e))?
        .skip(1)
        .collect(alloc)?;
    let (kind, n, wanted) = read_wanted(&words)?;
    let mesh = make(alloc, kind, n)?;
    let mut fabric = ThreadFabric::new(rt, alloc, NoGate);
    let text = match wanted {
        Wanted::Made => made_text(alloc, &mesh)?,
        Wanted::Drawn => drawn_text(rt, alloc, &mesh, &mut fabric)?,
        Wanted::Shared(ranks) => shared_text(rt, alloc, &mesh, ranks, &mut fabric)?,
    };
    let mut out = OutSink::new(rt);
    out.write(text.as_bytes())?;
    out.flush()?;
    Ok(())
}

fn main(rt: HostRuntime) -> ExitCode {
    match run(&rt) {
        Ok(()) => ExitCode::SUCCESS,
        Err(trouble) => ExitCode::from(trouble.code()),
    }
}
