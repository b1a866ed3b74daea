//! Taking the files that words name.
ghost use Rattle.std.specs.Prelude.{◌≡◌, ℕ, List, option_map, IfOk, IfErr, None};
ghost use Rattle.cause_defs.specs.Faults.{FailsTake};
ghost use Rattle.input_defs.specs.Words.{source_name};
ghost use Rattle.job_words.specs.Asking.{source_view, text_of};
ghost use Rattle.plex_job.specs.job_task.Files.{IsShortFile, IsUntaken, IsTaken, IsStopAt, IsInput, UnlessUnread, bytes_of};

use crate::job_task::stop::Stop;
use job_words::Source;
use mesh_make::Kind;
use plex_base::MAX_FILE_BYTES;
use report::Refusal;
use shelf_io::{Shelf, ShelfFault};
use std::alloc::Global;

/// What the mesh is made of: the bytes of its file, or a kind and its number.
#[derive(Drop)]
pub(crate) enum Input {
    File(Vec<u8>),
    Made(Kind, u32),
}

/// Takes the file of a name.
fn take_file<'a, S: Shelf>(alloc: Global, name: &'a str, shelf: &mut S) -> Result<Vec<u8>, Stop<'a>>
    ensures ok { IfOk result (λ bytes. IsShortFile (S.file shelf.old name.now) bytes.items) }
    ensures err { IfErr result (λ stop. IsUntaken (S.file shelf.old name.now) name.now (FailsTake S.faults S.last_failed shelf.old shelf.new) stop) }
    ensures kept { (n : List ℕ) → S.file shelf.new n ≡ S.file shelf.old n }
    ensures count { UnlessUnread result (S.faults shelf.new ≡ S.faults shelf.old) }
{
    let mut bytes = Vec::new(alloc);
    match shelf.take(name, MAX_FILE_BYTES, &mut bytes) {
        Ok(()) => Ok(bytes),
        Err(ShelfFault::Failed) => Err(Stop::Refused(Refusal::Read(name))),
        Err(ShelfFault::TooLong) => Err(Stop::Refused(Refusal::TooLong(name))),
        Err(ShelfFault::NoMemory) => Err(Stop::NoMemory),
    }
}

/// Takes the plan's file, where there is one.
pub(crate) fn take_plan<'a, S: Shelf>(
    alloc: Global,
    name: Option<&'a str>,
    shelf: &mut S,
) -> Result<Option<Vec<u8>>, Stop<'a>>
    ensures ok { IfOk result (λ file. IsTaken (S.file shelf.old) (option_map text_of name.entry) (bytes_of file)) }
    ensures err { IfErr result (λ stop. IsStopAt (S.file shelf.old) (FailsTake S.faults S.last_failed shelf.old shelf.new) (option_map text_of name.entry) stop) }
    ensures kept { (n : List ℕ) → S.file shelf.new n ≡ S.file shelf.old n }
    ensures count { UnlessUnread result (S.faults shelf.new ≡ S.faults shelf.old) }
{
    match name {
        None => Ok(None),
        Some(name) => match take_file(alloc, name, shelf) {
            Ok(bytes) => Ok(Some(bytes)),
            Err(stop) => Err(stop),
        },
    }
}

/// Takes the mesh's file, unless the mesh is made.
pub(crate) fn take_mesh<'a, S: Shelf>(
    alloc: Global,
    source: Source<'a>,
    shelf: &mut S,
) -> Result<Input, Stop<'a>>
    ensures ok { IfOk result (λ input. IsInput (S.file shelf.old) (source_view source.entry) input) }
    ensures err { IfErr result (λ stop. IsStopAt (S.file shelf.old) (FailsTake S.faults S.last_failed shelf.old shelf.new) (source_name (source_view source.entry)) stop) }
    ensures count { UnlessUnread result (S.faults shelf.new ≡ S.faults shelf.old) }
{
    match source {
        Source::File(name) => match take_file(alloc, name, shelf) {
            Ok(bytes) => Ok(Input::File(bytes)),
            Err(stop) => Err(stop),
        },
        Source::Made(kind, n) => Ok(Input::Made(kind, n)),
    }
}
