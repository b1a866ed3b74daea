//! The top call.
ghost use Rattle.std.specs.Prelude.{◌≡◌, ℕ, ◌≤◌, List, length, map, true, None, option_map, IfOk, IsSome, string_bytes};
ghost use Rattle.input_defs.specs.Words.{request};
ghost use Rattle.headline_defs.specs.Headline.{Headline};
ghost use Rattle.headline_defs.specs.Tops.{asking_built, picks_in};
ghost use Rattle.plex_job.specs.Seen.{seen, seen_replay, Replays};
ghost use Rattle.plex_job.specs.Statuses.{UnlessFault, UnlessWriteFault, UnlessAnswer};

use crate::ending::ending;
use crate::job_task::{Stop, read_task};
use crate::picked::PickedFabric;
use crate::picks::read_picks;
use crate::running::perform;
use input_defs::Status;
use plex_base::NoMemory;
use report::{Refusal, write_refusal};
use sf_fabric::Fabric;
use shelf_io::{Shelf, Sink};
use std::alloc::Global;
use std::thread::Threads;

/// Does what words ask for, whatever words the call is seen to have.
fn run_words<R: Threads + Sync, S: Shelf, W: Sink, F: Fabric>(
    rt: &R,
    alloc: Global,
    words: &[String],
    shelf: &mut S,
    out: &mut W,
    fabric: &mut F,
) -> Status
    ensures headline { (seen_words : List (List ℕ)) → Headline (asking_built (map string_bytes words.now)) (seen S.file S.faults S.last_failed W.written W.flushed W.faults F.kept
        seen_words shelf.old shelf.new out.old out.new fabric.old fabric.new result) }
    ensures refused_words { request (map string_bytes words.now) ≡ None → shelf.new ≡ shelf.old }
    ensures shelf_count { UnlessFault result (S.faults shelf.new ≡ S.faults shelf.old) }
    ensures sink_count { W.counts_failures_alone out.old ≡ true → UnlessWriteFault result (W.faults out.new ≡ W.faults out.old) }
    ensures fault_flush { UnlessAnswer result (W.flushed out.new ≡ W.flushed out.old) }
{
    match read_task(alloc, words, shelf) {
        Ok(task) => perform(rt, alloc, &task, out, fabric),
        Err(Stop::Refused(refusal)) => {
            let written = write_refusal(alloc, &refusal, out);
            ending(written, refusal.status())
        }
        Err(Stop::NoMemory) => Status::NoMemory,
    }
}

/// Reads the files that the words name, runs the rounds of the plan, and writes the mesh as it is
/// spread over ranks, step by step.
///
/// Ranks work side by side in threads of `rt`. `words` are those after the program's name. Each line with its LF is one `write`, and a whole
/// answer is flushed. The rounds that the fabric keeps grow by the home round and the number round of
/// each part; a step is written only after its part's round.
///
/// The mesh is that of DMPlex after `DMPlexInterpolate` and `DMPlexDistribute`; its file is one in the
/// MSH format 2.2 of the Gmsh manual, as text.
pub fn job<R: Threads + Sync, S: Shelf, W: Sink, F: Fabric>(
    rt: &R,
    alloc: Global,
    words: &[String],
    shelf: &mut S,
    out: &mut W,
    fabric: &mut F,
) -> Status
    // What was written, which rounds were kept, and the cause of each status.
    ensures headline { Headline (asking_built (map string_bytes words.now)) (seen S.file S.faults S.last_failed W.written W.flushed W.faults F.kept
        (map string_bytes words.now) shelf.old shelf.new out.old out.new fabric.old fabric.new result) }

    // Refused words leave the shelf as it is, and its count stays with each answer but ReadFault.
    ensures refused_words { request (map string_bytes words.now) ≡ None → shelf.new ≡ shelf.old }
    ensures shelf_count { UnlessFault result (S.faults shelf.new ≡ S.faults shelf.old) }

    // The count of a sink that counts failures alone stays with each status but WriteFault.
    ensures sink_count { W.counts_failures_alone out.old ≡ true → UnlessWriteFault result (W.faults out.new ≡ W.faults out.old) }

    // After a fault of the sink or of memory nothing more is flushed.
    ensures fault_flush { UnlessAnswer result (W.flushed out.new ≡ W.flushed out.old) }
{
    run_words(rt, alloc, words, shelf, out, fabric)
}

/// Does what [`job`] does with the words after the first one, with rounds whose interleaving the first
/// word gives: picks, each of which lets a rank do its next ask. They are `-` for none, or numbers of one to
/// nine digits, without a zero in front, with single commas between them.
///
/// Words whose first one is missing or other are refused.
pub fn replay<R: Threads + Sync, S: Shelf, W: Sink>(
    rt: &R,
    alloc: Global,
    words: &[String],
    shelf: &mut S,
    out: &mut W,
) -> Status
    // The headline of the call, whose rounds are the first that the picks give.
    ensures replay { Replays (seen_replay S.file S.faults S.last_failed W.written W.flushed W.faults
        (map string_bytes words.now) shelf.old shelf.new out.old out.new result) }

    // The shelf's count stays with each answer but ReadFault.
    ensures shelf_count { UnlessFault result (S.faults shelf.new ≡ S.faults shelf.old) }

    // The count of a sink that counts failures alone stays with each status but WriteFault.
    ensures sink_count { W.counts_failures_alone out.old ≡ true → UnlessWriteFault result (W.faults out.new ≡ W.faults out.old) }

    // After a fault of the sink or of memory nothing more is flushed.
    ensures fault_flush { UnlessAnswer result (W.flushed out.new ≡ W.flushed out.old) }
{
    match first_picks(alloc, words) {
        Ok(Some(picks)) => {
            let mut fabric = PickedFabric::new(picks);
            run_words(rt, alloc, &words[1..], shelf, out, &mut fabric)
        }
        Ok(None) => {
            let written = write_refusal(alloc, &Refusal::Words, out);
            ending(written, Status::Words)
        }
        Err(NoMemory) => Status::NoMemory,
    }
}

/// The picks that the first word lists.
fn first_picks(alloc: Global, words: &[String]) -> Result<Option<Vec<u32>>, NoMemory>
    ensures picks { IfOk result (λ found. option_map (λ v. v.items) found ≡ picks_in (map string_bytes words.now)) }
    ensures some { IfOk result (λ found. IsSome found → 1 ≤ length words.now) }
{
    match words {
        [] => Ok(None),
        [word, ..] => read_picks(alloc, word.as_bytes()),
    }
}
