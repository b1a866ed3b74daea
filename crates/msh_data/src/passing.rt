//! Numbers and texts that are read and dropped.

ghost use Rattle.input_defs.specs.Bodies.{many, int, quoted};
ghost use Rattle.input_defs.specs.DataSections.{real};
ghost use Rattle.input_laws.specs.reading_laws.Going.{passed, Goes};

use crate::msh_body::{int, pass_real, quoted};
use input_defs::DataFault;
use scan::Scan;

/// Passes so many signed numbers.
pub fn pass_ints(scan: &mut Scan<'_>, count: u32) -> Result<(), DataFault>
    ensures { Goes (passed (many count int)) scan.old result scan.new }
{
    for _ in 0..count {
        let _ = int(scan)?;
    }
    Ok(())
}

/// Passes so many numbers of the shape of a fixed-point number.
pub fn pass_reals(scan: &mut Scan<'_>, count: u32) -> Result<(), DataFault>
    ensures { Goes (passed (many count real)) scan.old result scan.new }
{
    for _ in 0..count {
        pass_real(scan)?;
    }
    Ok(())
}

/// Passes so many quoted texts.
pub fn pass_texts(scan: &mut Scan<'_>, count: u32) -> Result<(), DataFault>
    ensures { Goes (passed (many count quoted)) scan.old result scan.new }
{
    for _ in 0..count {
        let _ = quoted(scan)?;
    }
    Ok(())
}
