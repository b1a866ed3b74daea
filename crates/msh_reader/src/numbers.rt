//! Numbers that every section reads.

ghost use Rattle.std.specs.Prelude.{pos};
ghost use Rattle.input_defs.specs.declared.MshFault.TheVariants.{BadCount};
ghost use Rattle.input_defs.specs.Bodies.{many, int};
ghost use Rattle.input_defs.specs.Sections.{count};
ghost use Rattle.input_laws.specs.reading_laws.Going.{passed, first_of, end_of_body};
ghost use Rattle.msh_reader.specs.Going.{Goes};

use crate::trouble::Trouble;
use input_defs::{MshFault, What};
use msh_data::msh_body::{int, uint};
use scan::Scan;

/// How many there are of something, up to a limit.
pub fn count(scan: &mut Scan<'_>, limit: u32, what: What) -> Result<u32, Trouble>
    ensures { Goes (count limit what) scan.old result scan.new }
{
    let (number, line) = uint(scan)?;
    if number > limit {
        return Err(Trouble::Fault(MshFault::TooMany { line, what }));
    }
    Ok(number)
}

/// Passes so many signed numbers.
fn pass_ints(scan: &mut Scan<'_>, count: u32) -> Result<(), Trouble>
    ensures { Goes (passed (many count int)) scan.old result scan.new }
{
    for _ in 0..count {
        let _ = int(scan)?;
    }
    Ok(())
}

/// The first of so many signed numbers, or 0.
pub fn first_int(scan: &mut Scan<'_>, count: u32) -> Result<i32, Trouble>
    ensures { Goes (first_of (pos 0) count int) scan.old result scan.new }
{
    if count == 0 {
        return Ok(0);
    }
    let (first, _) = int(scan)?;
    pass_ints(scan, count - 1)?;
    Ok(first)
}

/// Looks whether the body has ended. An `Err` is that there is a further token: a wrong count.
pub fn end_of_body(scan: &mut Scan<'_>) -> Result<(), Trouble>
    ensures { Goes (end_of_body BadCount) scan.old result scan.new }
{
    msh_data::msh_body::end_of_body(scan)?;
    Ok(())
}
