//! Parts of lines, each appended to the bytes of a line that is being made.

ghost use Rattle.std.specs.Prelude.{◌≡◌, ◌++◌, [], OnOk};
ghost use Rattle.input_defs.specs.Refused.{on_line, one_number};

use crate::report_lines::{append_field, append_number};
use plex_base::NoMemory;

/// A text, and a number after a blank.
#[tactic(auto, using(std::proofs::Common::append_assoc))]
pub(crate) fn append_numbered(line: &mut Vec<u8>, text: &[u8], number: u64) -> Result<(), NoMemory>
    ensures { OnOk result (line.new.items ≡ line.old.items ++ one_number text.now number) }
{
    line.extend_from_slice(text)?;
    line.push(b' ')?;
    append_number(line, number)
}

/// The same twice.
#[tactic(auto, using(std::proofs::Common::append_assoc))]
pub(crate) fn append_two(
    line: &mut Vec<u8>,
    text: &[u8],
    first: u64,
    between: &[u8],
    second: u64,
) -> Result<(), NoMemory>
    ensures { OnOk result (line.new.items ≡ line.old.items ++ one_number (one_number text.now first ++ between.now) second) }
{
    append_numbered(line, text, first)?;
    append_numbered(line, between, second)
}

/// A text, and two numbers, each after a blank.
#[tactic(auto, using(std::proofs::Common::append_assoc))]
pub(crate) fn append_pair(
    line: &mut Vec<u8>,
    text: &[u8],
    first: u32,
    second: u32,
) -> Result<(), NoMemory>
    ensures { OnOk result (line.new.items ≡ line.old.items ++ one_number (one_number text.now first) second) }
{
    append_numbered(line, text, u64::from(first))?;
    append_field(line, b" ", u64::from(second))
}

/// Where something is wrong: the number of a line of a file.
#[tactic(auto, using(std::proofs::Common::append_assoc))]
pub(crate) fn append_place(line: &mut Vec<u8>, at: u32) -> Result<(), NoMemory>
    ensures { OnOk result (line.new.items ≡ line.old.items ++ on_line at []) }
{
    append_field(line, b"line ", u64::from(at))?;
    line.push(b' ')?;
    Ok(())
}

/// What is wrong on a line of a file: its number, and a text.
#[tactic(auto, using(std::proofs::Common::append_assoc))]
pub(crate) fn append_on_line(line: &mut Vec<u8>, at: u32, text: &[u8]) -> Result<(), NoMemory>
    ensures { OnOk result (line.new.items ≡ line.old.items ++ on_line at text.now) }
{
    append_place(line, at)?;
    line.extend_from_slice(text)?;
    Ok(())
}

/// The same with a number that is wrong there.
#[tactic(auto, using(std::proofs::Common::append_assoc))]
pub(crate) fn append_wrong(
    line: &mut Vec<u8>,
    at: u32,
    text: &[u8],
    number: u32,
) -> Result<(), NoMemory>
    ensures { OnOk result (line.new.items ≡ line.old.items ++ on_line at (one_number text.now number)) }
{
    append_on_line(line, at, text)?;
    append_field(line, b" ", u64::from(number))
}
