//! Numbers, each appended to the bytes of a line that is being made.

ghost use Rattle.std.specs.Prelude.{◌≡◌, ◌++◌, OnOk, decimal};
ghost use Rattle.input_defs.specs.line_defs.Numbers.{fixed_text};
ghost use Rattle.headline_defs.specs.Lines.{also};

use itoa::Buffer;
use plex_base::NoMemory;
use scan::print_fixed;

/// A number as its decimal digits.
///
/// Fails only for want of memory.
pub fn append_number(line: &mut Vec<u8>, number: u64) -> Result<(), NoMemory>
    ensures { OnOk result (line.new.items ≡ line.old.items ++ decimal number) }
{
    line.extend_from_slice(Buffer::new().format(number).as_bytes())?;
    Ok(())
}

/// A number after a blank.
///
/// Fails only for want of memory.
#[tactic(auto, using(std::proofs::Common::append_assoc))]
pub fn append_also(line: &mut Vec<u8>, number: u64) -> Result<(), NoMemory>
    ensures { OnOk result (line.new.items ≡ line.old.items ++ also number) }
{
    line.push(b' ')?;
    append_number(line, number)
}

/// A fixed-point number, in 10^-10, as its shortest decimal text.
///
/// Fails only for want of memory.
pub fn append_fixed(line: &mut Vec<u8>, value: i64) -> Result<(), NoMemory>
    ensures { OnOk result (line.new.items ≡ line.old.items ++ fixed_text value) }
{
    print_fixed(i128::from(value), line)
}

/// A text, and a number after it.
///
/// Fails only for want of memory.
pub fn append_field(line: &mut Vec<u8>, text: &[u8], number: u64) -> Result<(), NoMemory>
    ensures { OnOk result (line.new.items ≡ line.old.items ++ (text.now ++ decimal number)) }
{
    line.extend_from_slice(text)?;
    append_number(line, number)
}
