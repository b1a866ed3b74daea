//! `plexreplay PICKS [--plan NAME] [--summary] MESH` does what `plexrun` does with the other words, with rounds whose
//! interleaving the picks give: `-` for none, or numbers of ranks with commas between them.
//!
//! Its exit status is that of the top call.
#![tactic(auto)]

use plex_job::{Status, replay};
use shelf_io::{FolderShelf, OutSink};
use std::io::ErrorKind;
use std::process::ExitCode;
use std::rt::{Env, Files};
use std::thread::Threads;
use std::{env, io};

/// The words after the program's name.
fn words<R: Env + AllocGlobal>(rt: &R) -> io::Result<Vec<String>> {
    let words = env::args(rt)?.skip(1).collect(rt.alloc())?;
    Ok(words)
}

/// Does what the words ask for. Words that can't be read count as refused ones.
fn run<R: Env + Files + Print + AllocGlobal + Threads + Sync>(rt: &R) -> Status {
    let mut shelf = FolderShelf::new(rt);
    let mut out = OutSink::new(rt);
    match words(rt) {
        Ok(words) => replay(rt, rt.alloc(), &words, &mut shelf, &mut out),
        Err(e) if e.kind() == ErrorKind::OutOfMemory => Status::NoMemory,
        Err(_) => replay(rt, rt.alloc(), &[], &mut shelf, &mut out),
    }
}

fn main(rt: HostRuntime) -> ExitCode {
    ExitCode::from(run(&rt).code())
}
