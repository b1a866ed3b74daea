//! The section MeshFormat.

ghost use Rattle.std.specs.Prelude.{◌==◌};
ghost use Rattle.input_defs.specs.scan_defs.Numbers.{uint_of, fixed_of};
ghost use Rattle.input_defs.specs.declared.MshFault.TheVariants.{Version, Binary};
ghost use Rattle.input_defs.specs.Causes.{ok_where};
ghost use Rattle.input_defs.specs.Bodies.{tested};
ghost use Rattle.input_defs.specs.Sections.{is_version, format};
ghost use Rattle.msh_reader.specs.Going.{Goes};

use crate::trouble::Trouble;
use input_defs::MshFault;
use msh_data::msh_body::{fixed, uint};
use scan::Scan;

/// The version 2.2, in 10^-10.
fn version(scan: &mut Scan<'_>) -> Result<i64, Trouble>
    ensures { Goes (tested fixed_of (λ line v. ok_where (is_version v) v (Version line))) scan.old result scan.new }
{
    let (version, line) = fixed(scan)?;
    if version != 22_000_000_000 {
        return Err(Trouble::Fault(MshFault::Version { line }));
    }
    Ok(version)
}

/// The 0 of a file that is text.
fn file_type(scan: &mut Scan<'_>) -> Result<u32, Trouble>
    ensures { Goes (tested uint_of (λ line n. ok_where (n == 0) n (Binary line))) scan.old result scan.new }
{
    let (kind, line) = uint(scan)?;
    if kind != 0 {
        return Err(Trouble::Fault(MshFault::Binary { line }));
    }
    Ok(kind)
}

/// Reads the body of MeshFormat: the version, the type of the file and the size of a number, which
/// is the answer.
pub fn format(scan: &mut Scan<'_>) -> Result<u32, Trouble>
    ensures { Goes format scan.old result scan.new }
{
    let _ = version(scan)?;
    let _ = file_type(scan)?;
    let (size, _) = uint(scan)?;
    Ok(size)
}
