//! Reading the words of a call.

ghost use Rattle.std.specs.Prelude.{◌≡◌, map, option_and_then, option_map, string_bytes, IfOk, None, Some};
ghost use Rattle.std.specs.List.{list_any};
ghost use Rattle.clap.specs.Matches.{found_of};
ghost use Rattle.clap.specs.Walk.{is_empty, rows_of};
ghost use Rattle.input_laws.specs.command_laws.Command.{both_asked, file_of, flag_at, is_dashes, plan_of, request_at, source_of};
ghost use Rattle.input_defs.specs.Words.{made_of, request, request_of};
ghost use Rattle.job_words.specs.Asking.{request_view, source_view, text_of, texts_in};

use crate::asked::{Request, Source, is_file_name};
use crate::command::matches_of;
use crate::made::made_of;
use clap::ArgMatches;
use plex_base::NoMemory;
use std::alloc::Global;

/// Whether the summary is asked for.
fn has_summary(matches: &ArgMatches<'_>) -> bool
    ensures { result ≡ flag_at (rows_of (found_of matches.now)) }
{
    match matches.get_str("summary") {
        Some(value) => value == "true",
        None => false,
    }
}

/// The name of the plan's file, of which there is at most one.
fn plan_of<'a>(names: Option<&[&'a str]>) -> Option<Option<&'a str>>
    ensures { option_map (option_map text_of) result ≡ plan_of (texts_in names.entry) }
{
    let Some(names) = names else {
        return Some(None);
    };
    match names {
        [] => Some(None),
        [name] if is_file_name(name.as_bytes()) => Some(Some(*name)),
        _ => None,
    }
}

/// The mesh's file, of which there is at most one.
fn file_of<'a>(names: Option<&[&'a str]>) -> Option<Option<Source<'a>>>
    ensures { option_map (option_map source_view) result ≡ file_of (texts_in names.entry) }
{
    let Some(names) = names else {
        return Some(None);
    };
    match names {
        [] => Some(None),
        [name] if is_file_name(name.as_bytes()) => Some(Some(Source::File(*name))),
        _ => None,
    }
}

/// The generated mesh that a word names.
fn made<'a>(word: &str) -> Option<Option<Source<'a>>>
    ensures { option_map (option_map source_view) result ≡ option_map Some (made_of word.now) }
{
    let (kind, n) = made_of(word.as_bytes())?;
    Some(Some(Source::Made(kind, n)))
}

/// The generated mesh or the mesh's file, of which there is at most one.
fn source_of<'a>(
    made_words: Option<&[&'a str]>,
    names: Option<&[&'a str]>,
) -> Option<Option<Source<'a>>>
    ensures { option_map (option_map source_view) result ≡ source_of (texts_in made_words.entry) (texts_in names.entry) }
{
    let Some(made_words) = made_words else {
        return file_of(names);
    };
    match made_words {
        [] => file_of(names),
        [word] if has_none(names) => made(*word),
        _ => None,
    }
}

/// Whether there is no value.
fn has_none(values: Option<&[&str]>) -> bool
    ensures { result ≡ is_empty (texts_in values.entry) }
{
    match values {
        Some(values) => values.is_empty(),
        None => true,
    }
}

/// What is asked for, where the plan's name and the source are right and there is a source.
fn combined<'a>(
    plan: Option<Option<&'a str>>,
    source: Option<Option<Source<'a>>>,
    summary: bool,
) -> Option<Request<'a>>
    ensures { option_map request_view result ≡ option_and_then (λ asked. request_of asked None) (both_asked summary (option_map (option_map text_of) plan.entry) (option_map (option_map source_view) source.entry)) }
{
    let plan = plan?;
    let source = source??;
    Some(Request {
        plan,
        source,
        summary,
    })
}

/// What matches ask for, where their values are right.
fn request_of<'a>(matches: &ArgMatches<'a>) -> Option<Request<'a>>
    ensures { option_map request_view result ≡ request_at (rows_of (found_of matches.now)) }
{
    let plan = plan_of(matches.get_raw("plan"));
    let source = source_of(matches.get_raw("make"), matches.get_raw("mesh"));
    combined(plan, source, has_summary(matches))
}

/// Whether `--` stands alone among the words.
fn has_dashes(words: &[String]) -> bool
    ensures { result ≡ list_any is_dashes (map string_bytes words.now) }
{
    words.iter().any(|word| word.as_str() == "--")
}

/// What the words of a call ask for, those after the program's name, where they are accepted.
///
/// They are these, in any order and each at most once: `--plan NAME` or `--plan=NAME`, `--summary`,
/// and either `--make KIND:N` or `--make=KIND:N`, or the name of a mesh file, exactly one of the two.
/// A name is not empty and does not begin with `-`.
pub fn read_words(alloc: Global, words: &[String]) -> Result<Option<Request<'_>>, NoMemory>
    ensures { IfOk result (λ asked. option_map request_view asked ≡ request (map string_bytes words.now)) }
{
    if has_dashes(words) {
        return Ok(None);
    }
    let Some(matches) = matches_of(alloc, words)? else {
        return Ok(None);
    };
    Ok(request_of(&matches))
}
