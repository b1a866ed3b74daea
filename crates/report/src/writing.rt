//! Lines that are written.

ghost use Rattle.std.specs.Prelude.{◌≡◌};
ghost use Rattle.input_defs.specs.text_defs.Text.{end_line};
ghost use Rattle.report.specs.Delivery.{Delivers};

use cause_defs::ReportFault;
use shelf_io::Sink;

/// Writes the last line of a text, and flushes.
pub(crate) fn write_last<W: Sink>(out: &mut W, line: &[u8]) -> Result<(), ReportFault>
    ensures { Delivers W.written W.flushed W.faults W.counts_failures_alone result out.old out.new line.now }
{
    out.write(line)?;
    out.flush()?;
    Ok(())
}

/// Writes the line `end`, after which nothing stands in the text of a run, and flushes.
///
/// Fails where the sink does. Then the line, or a part of it from its beginning, is added, and nothing is flushed.
#[tactic(auto, unfolding(input_defs::specs::text_defs::Text::end_line))]
pub fn write_end<W: Sink>(out: &mut W) -> Result<(), ReportFault>
    ensures { Delivers W.written W.flushed W.faults W.counts_failures_alone result out.old out.new end_line }
{
    write_last(out, b"end\n")
}
