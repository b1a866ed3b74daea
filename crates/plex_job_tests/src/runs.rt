//! Rows of tables: runs of the top call on files in memory, and what they have to give.

use crate::files::{ONE_TRIANGLE, TWO_TRIANGLES};
use plex_job::{Status, job, replay};
use sf_fabric::Fabric;
use sf_fabric::script::ScriptFabric;
use sf_threads::{NoGate, ThreadFabric};
use shelf_io::{MemoryShelf, MemorySink};
use std::alloc::{AllocError, Global};
use std::process::Abort;
use std::test::Fail;
use std::thread::Threads;

/// A file of the shelf.
pub(crate) enum File {
    /// These pieces, one behind the other.
    Pieces(&'static [&'static str]),
    /// The file of one triangle, with these texts in place of some lines, which count from 1. A line
    /// whose text is empty is left out.
    Triangle(&'static [(usize, &'static str)]),
}

/// What a run writes.
pub(crate) enum Want {
    /// This text and no more.
    Text(&'static str),
    /// Among others, lines that begin like these.
    Lines(&'static [&'static str]),
}

/// A run, and what it has to give.
pub(crate) struct Run {
    /// The words of the command.
    pub(crate) words: &'static [&'static str],
    /// The names and the files of the shelf.
    pub(crate) files: &'static [(&'static str, File)],
    /// The numbers of the takes that fail.
    pub(crate) failing_takes: &'static [u32],
    /// The calls of the sink that fail, each after so many bytes.
    pub(crate) failing_calls: &'static [(u32, u32)],
    /// The status.
    pub(crate) status: Status,
    /// What is written.
    pub(crate) want: Want,
    /// How many rounds are kept: the home round, and a number round for each part.
    pub(crate) rounds: usize,
}

/// The shelf of two triangles.
pub(crate) const MESH_OF_TWO: &[(&str, File)] = &[("mesh", File::Pieces(&[TWO_TRIANGLES]))];

/// A mesh on one rank, without faults.
pub(crate) const ONE_RANK: Run = Run {
    words: &["mesh"],
    files: &[],
    failing_takes: &[],
    failing_calls: &[],
    status: Status::Done,
    want: Want::Text(""),
    rounds: 2,
};

/// A mesh and the plan `p`, which has one part.
pub(crate) const PLANNED: Run = Run {
    words: &["--plan", "p", "mesh"],
    ..ONE_RANK
};

/// Words that are refused.
pub(crate) const REFUSED_WORDS: Run = Run {
    status: Status::Words,
    want: Want::Text("refused: words\n"),
    rounds: 0,
    ..ONE_RANK
};

/// Each run gives what it has to, by a script and by threads.
pub(crate) fn check_both<R: Threads + Sync + Abort>(
    rt: &R,
    alloc: Global,
    rows: &[Run],
) -> Result<(), Fail> {
    for (index, row) in rows.iter().enumerate() {
        check_by_script(rt, alloc, index, row)?;
        check_by_threads(rt, alloc, index, row)?;
    }
    Ok(())
}

/// Each run gives what it has to, by a script: its text tells how ranks took turns.
pub(crate) fn check<R: Threads + Sync + Abort>(
    rt: &R,
    alloc: Global,
    rows: &[Run],
) -> Result<(), Fail> {
    for (index, row) in rows.iter().enumerate() {
        check_by_script(rt, alloc, index, row)?;
    }
    Ok(())
}

/// A run by a script without picks.
fn check_by_script<R: Threads + Sync + Abort>(
    rt: &R,
    alloc: Global,
    index: usize,
    row: &Run,
) -> Result<(), Fail> {
    let mut fabric = script(alloc);
    check_by(rt, alloc, index, row, &mut fabric)?;
    assert_eq!(rt; fabric.kept().len(), row.rounds, "row {index}");
    Ok(())
}

/// A run by threads.
fn check_by_threads<R: Threads + Sync + Abort>(
    rt: &R,
    alloc: Global,
    index: usize,
    row: &Run,
) -> Result<(), Fail> {
    let mut fabric = ThreadFabric::new(rt, alloc, NoGate);
    check_by(rt, alloc, index, row, &mut fabric)?;
    assert_eq!(rt; fabric.kept().len(), row.rounds, "row {index}");
    Ok(())
}

/// A fabric whose ranks take their turns one after another.
pub(crate) fn script(alloc: Global) -> ScriptFabric {
    ScriptFabric::new(Vec::new(alloc))
}

/// A run on a fabric gives what it has to.
pub(crate) fn check_by<R: Threads + Sync + Abort, F: Fabric>(
    rt: &R,
    alloc: Global,
    index: usize,
    row: &Run,
    fabric: &mut F,
) -> Result<(), Fail> {
    let words = words_of(alloc, row.words)?;
    let mut shelf = shelf_of(alloc, row)?;
    let mut out = sink_of(alloc, row)?;
    let status = status_of(rt, alloc, &words, &mut shelf, &mut out, fabric);
    check_answer(rt, index, row, status, &out);
    Ok(())
}

/// The status of the top call. No clause speaks of it, so that its callers have short proofs.
fn status_of<R: Threads + Sync, F: Fabric>(
    rt: &R,
    alloc: Global,
    words: &[String],
    shelf: &mut MemoryShelf,
    out: &mut MemorySink,
    fabric: &mut F,
) -> Status {
    job(rt, alloc, words, shelf, out, fabric)
}

/// Each run gives what it has to, where the first word of each has the picks of its rounds.
pub(crate) fn check_replays<R: Threads + Sync + Abort>(
    rt: &R,
    alloc: Global,
    rows: &[Run],
) -> Result<(), Fail> {
    for (index, row) in rows.iter().enumerate() {
        check_replay(rt, alloc, index, row)?;
    }
    Ok(())
}

/// A run by picks gives what it has to. Its rounds are not seen.
fn check_replay<R: Threads + Sync + Abort>(
    rt: &R,
    alloc: Global,
    index: usize,
    row: &Run,
) -> Result<(), Fail> {
    let words = words_of(alloc, row.words)?;
    let mut shelf = shelf_of(alloc, row)?;
    let mut out = sink_of(alloc, row)?;
    let status = replayed(rt, alloc, &words, &mut shelf, &mut out);
    check_answer(rt, index, row, status, &out);
    Ok(())
}

/// The status of a replay, without a clause as [`status_of`].
fn replayed<R: Threads + Sync>(
    rt: &R,
    alloc: Global,
    words: &[String],
    shelf: &mut MemoryShelf,
    out: &mut MemorySink,
) -> Status {
    replay(rt, alloc, words, shelf, out)
}

/// The status and the text are those of the row, and a whole answer is flushed.
fn check_answer<R: Abort>(rt: &R, index: usize, row: &Run, status: Status, out: &MemorySink) {
    assert_eq!(rt; status, row.status, "row {index}");
    check_text(rt, index, &row.want, out.bytes());
    let flushed = match status {
        Status::WriteFault => 0,
        _ => out.bytes().len(),
    };
    assert_eq!(rt; out.flushed(), flushed, "row {index}");
}

/// The text is the one that is wanted, or has the lines that are.
fn check_text<R: Abort>(rt: &R, index: usize, want: &Want, text: &[u8]) {
    match want {
        Want::Text(whole) => {
            assert_eq!(rt; text, whole.as_bytes(), "row {index}: {whole}");
        }
        Want::Lines(lines) => {
            for line in *lines {
                assert!(rt; has_line(text, line), "row {index}: {line}");
            }
        }
    }
}

/// A line of the text begins like this.
fn has_line(text: &[u8], beginning: &str) -> bool {
    for line in text.split(|b| *b == b'\n') {
        if line.starts_with(beginning.as_bytes()) {
            return true;
        }
    }
    false
}

/// These words.
fn words_of(alloc: Global, words: &[&str]) -> Result<Vec<String>, AllocError> {
    let mut all = Vec::new(alloc);
    for word in words {
        all.push(String::from_str(alloc, word)?)?;
    }
    Ok(all)
}

/// The shelf of a run.
fn shelf_of(alloc: Global, row: &Run) -> Result<MemoryShelf, AllocError> {
    let mut all = Vec::new(alloc);
    for (name, file) in row.files {
        let name = String::from_str(alloc, name)?;
        all.push((name, bytes_of(alloc, file)?))?;
    }
    Ok(MemoryShelf::new(all, Vec::from_slice(alloc, row.failing_takes)?))
}

/// The sink of a run, with room enough.
fn sink_of(alloc: Global, row: &Run) -> Result<MemorySink, AllocError> {
    let room = vec![in alloc; 0; 1048576]?;
    Ok(MemorySink::new(room, Vec::from_slice(alloc, row.failing_calls)?))
}

/// The bytes of a file.
fn bytes_of(alloc: Global, file: &File) -> Result<Vec<u8>, AllocError> {
    match file {
        File::Pieces(pieces) => joined(alloc, pieces),
        File::Triangle(changes) => with_lines(alloc, changes),
    }
}

/// These pieces, one behind the other.
fn joined(alloc: Global, pieces: &[&str]) -> Result<Vec<u8>, AllocError> {
    let mut bytes = Vec::new(alloc);
    for piece in pieces {
        bytes.extend_from_slice(piece.as_bytes())?;
    }
    Ok(bytes)
}

/// The file of one triangle, with these texts in place of some lines.
fn with_lines(alloc: Global, changes: &[(usize, &str)]) -> Result<Vec<u8>, AllocError> {
    let mut bytes = Vec::new(alloc);
    for (i, line) in ONE_TRIANGLE.iter().enumerate() {
        let text = text_of(changes, i + 1, line);
        bytes.extend_from_slice(text.as_bytes())?;
        if !text.is_empty() {
            bytes.push(b'\n')?;
        }
    }
    Ok(bytes)
}

/// The text in place of a line.
fn text_of<'a>(changes: &[(usize, &'a str)], number: usize, line: &'a str) -> &'a str {
    for change in changes {
        if change.0 == number {
            return change.1;
        }
    }
    line
}
