//! Lines that are written.

ghost use Rattle.std.specs.Prelude.{◌≡◌};
ghost use Rattle.cause_defs.specs.Reports.{Reports};

use cause_defs::ReportFault;
use shelf_io::Sink;

/// Writes a line that another one follows.
///
/// Fails only where the sink does.
pub fn write_line<W: Sink>(out: &mut W, line: &[u8]) -> Result<(), ReportFault>
    ensures { Reports W.written W.flushed W.faults W.counts_failures_alone result out.old out.new line.now }
{
    out.write(line)?;
    Ok(())
}
