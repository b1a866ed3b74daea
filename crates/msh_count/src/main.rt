//! `msh_count FILE` prints how many nodes, elements and physical names a mesh file of the working
//! folder has, and how many rows each of its data sections has. `msh_count FILE mesh` prints after
//! that how many vertices, cells and label values its mesh has; `diagram` in its place goes on with the points and
//! cone entries of its diagram, and `supports` with how many points all supports have.
//!
//! It makes the speed of the reader visible, of what makes the mesh and its diagram, and of supports: the whole file is
//! read, and its first fault is found.
//! Its exit status is that of [`Trouble`], or 0.
#![tactic(auto)]

ghost use Rattle.std.specs.Prelude.{◌≡◌, IfOk};
ghost use Rattle.msh_count.specs.Statuses.{counts_text};

mod counting;
mod drawing;
mod trouble;
mod walking;

use counting::{append_mesh, lines};
use drawing::on_one_rank;
use mesh_check::accept;
use msh_reader::{MshText, read_msh};
use plex_base::MAX_FILE_BYTES;
use shelf_io::{FolderShelf, OutSink, Shelf, Sink};
use std::env;
use std::io::{self, ErrorKind};
use std::process::ExitCode;
use std::rt::{Env, Files};
use std::thread::Threads;
use trouble::Trouble;
use walking::{append_diagram, append_supports};

/// Words that can't be read are refused ones.
fn unread(error: &io::Error) -> Trouble {
    match error.kind() {
        ErrorKind::OutOfMemory => Trouble::Memory,
        _ => Trouble::Words,
    }
}

/// How far a file is taken; each takes it as far as those before, too.
#[derive(Clone, Copy)]
enum Depth {
    Content,
    Mesh,
    Diagram,
    Supports,
}

/// What is asked for: a file, and how far it is taken.
#[derive(Drop)]
struct Request {
    name: String,
    depth: Depth,
}

/// How far a word asks to go.
fn depth_of(word: &str) -> Result<Depth, Trouble> {
    match word {
        "mesh" => Ok(Depth::Mesh),
        "diagram" => Ok(Depth::Diagram),
        "supports" => Ok(Depth::Supports),
        _ => Err(Trouble::Words),
    }
}

/// The words after the program's name: a file's, and then how far it is taken, or nothing.
fn asked_for<R: Env + AllocGlobal>(rt: &R) -> Result<Request, Trouble> {
    let mut words = env::args(rt).map_err(|e| unread(&e))?.skip(1);
    let name = words.next().ok_or(Trouble::Words)?;
    let depth = match words.next() {
        None => Depth::Content,
        Some(word) => depth_of(word.as_str())?,
    };
    match words.next() {
        None => Ok(Request { name, depth }),
        Some(_) => Err(Trouble::Words),
    }
}

/// What the file of this name says.
fn read_file<R: Files + AllocGlobal>(rt: &R, name: &str) -> Result<MshText, Trouble> {
    let mut bytes = Vec::new(rt.alloc());
    FolderShelf::new(rt).take(name, MAX_FILE_BYTES, &mut bytes)?;
    Ok(read_msh(rt.alloc(), &bytes)?)
}

/// Appends what is counted of the mesh, and of its diagram where that is asked for.
fn append_depth<R: AllocGlobal + Threads + Sync>(
    rt: &R,
    text: MshText,
    depth: Depth,
    lines: &mut Vec<u8>,
) -> Result<(), Trouble> {
    if let Depth::Content = depth {
        return Ok(());
    }
    let alloc = rt.alloc();
    let mesh = accept(alloc, text)?;
    append_mesh(alloc, &mesh, lines)?;
    if let Depth::Mesh = depth {
        return Ok(());
    }
    let dist = on_one_rank(rt, alloc, &mesh)?;
    // There is a rank: the proof takes this from the call.
    let _ranks = dist.ranks();
    let plex = dist.local(0).plex();
    append_diagram(alloc, plex, lines)?;
    if let Depth::Supports = depth {
        append_supports(alloc, plex, lines)?;
    }
    Ok(())
}

fn run<R: Env + Files + Print + AllocGlobal + Threads + Sync>(rt: &R) -> Result<(), Trouble> {
    let Request { name, depth } = asked_for(rt)?;
    let text = read_file(rt, name.as_str())?;
    let mut lines = lines(rt.alloc(), &text)?;
    append_depth(rt, text, depth, &mut lines)?;
    let mut out = OutSink::new(rt);
    out.write(&lines)?;
    out.flush()?;
    Ok(())
}

fn main(rt: HostRuntime) -> ExitCode {
    match run(&rt) {
        Ok(()) => ExitCode::SUCCESS,
        Err(trouble) => ExitCode::from(trouble.code()),
    }
}
