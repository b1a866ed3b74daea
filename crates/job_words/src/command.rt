//! The command by which `clap` reads the words of a call.

ghost use Rattle.std.specs.Prelude.{◌≡◌, ◌≢◌, map, string_bytes, IfOk};
ghost use Rattle.clap.specs.Simple.{app_of};
ghost use Rattle.clap.specs.Values.{kind_of};
ghost use Rattle.clap.specs.declared.error.kind.ErrorKind.TheVariants.{OutOfMemory};
ghost use Rattle.input_laws.specs.command_laws.Command.{command};
ghost use Rattle.job_words.specs.Asking.{IsMatched};

use clap::error::ErrorKind;
use clap::{Arg, ArgAction, ArgMatches, Command, Error};
use plex_base::NoMemory;
use std::alloc::{AllocError, Global};

/// The command: two options with a value, a flag, and a name, without a help flag.
///
/// Options and the name are appended, so that a second one is seen as a second value.
fn command<'a>(alloc: Global) -> Result<Command<'a>, AllocError>
    ensures { IfOk result (λ c. app_of c ≡ command) }
{
    let plan = Arg::new(alloc, "plan")
        .long("plan")
        .action(ArgAction::Append);
    let make = Arg::new(alloc, "make")
        .long("make")
        .action(ArgAction::Append);
    let summary = Arg::new(alloc, "summary")
        .long("summary")
        .action(ArgAction::SetTrue);
    let mesh = Arg::new(alloc, "mesh").action(ArgAction::Append);
    Command::new(alloc, "plexrun")
        .no_binary_name(true)
        .disable_help_flag(true)
        .arg(plan)?
        .arg(make)?
        .arg(summary)?
        .arg(mesh)
}

/// Tells want of memory from words that the command does not take.
fn only_refused(error: &Error) -> Result<(), NoMemory>
    ensures { IfOk result (λ _. kind_of error.now ≢ OutOfMemory) }
{
    if error.kind() == ErrorKind::OutOfMemory {
        return Err(NoMemory);
    }
    Ok(())
}

/// What the command matches in the words, where it takes them.
pub(crate) fn matches_of<'a>(
    alloc: Global,
    words: &'a [String],
) -> Result<Option<ArgMatches<'a>>, NoMemory>
    ensures { IfOk result (IsMatched (map string_bytes words.now)) }
{
    match command(alloc)?.try_get_matches_from(words) {
        Ok(matches) => Ok(Some(matches)),
        Err(error) => {
            only_refused(&error)?;
            Ok(None)
        }
    }
}
