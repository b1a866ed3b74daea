//! `plexrun [--plan NAME] [--summary] MESH` prints the oriented diagram of a mesh file of the working folder, as a plan
//! asks for it; `--make KIND:N` may stand in place of `MESH`.
//!
//! Its rounds go by threads, and its exit status is that of the top call.
#![tactic(auto)]

#[cfg(test)]
mod sharing;

use plex_job::{Status, job};
use sf_threads::{NoGate, ThreadFabric};
use shelf_io::{FolderShelf, OutSink};
use std::io::ErrorKind;
use std::process::ExitCode;
use std::rt::{Env, Files};
use std::thread::Threads;
use std::{env, io};

/// The words after the program's name.
fn words<R: Env + AllocGlobal>(rt: &R) -> io::Result<Vec<String>> {
    let words = env::args(rt)?.skip(1).collect(rt.alloc())?;
    Ok(words)
}

/// Does what the words ask for. Words that can't be read count as refused ones.
fn run<R: Env + Files + Print + AllocGlobal + Threads + Sync>(rt: &R) -> Status {
    let mut shelf = FolderShelf::new(rt);
    let mut out = OutSink::new(rt);
    let mut fabric = ThreadFabric::new(rt, rt.alloc(), NoGate);
    match words(rt) {
        Ok(words) => job(rt, rt.alloc(), &words, &mut shelf, &mut out, &mut fabric),
        Err(e) if e.kind() == ErrorKind::OutOfMemory => Status::NoMemory,
        Err(_) => job(rt, rt.alloc(), &[], &mut shelf, &mut out, &mut fabric),
    }
}

fn main(rt: HostRuntime) -> ExitCode {
    ExitCode::from(run(&rt).code())
}
