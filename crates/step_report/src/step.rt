//! The text of a step.

ghost use Rattle.std.specs.Prelude.{◌≡◌};
ghost use Rattle.std.specs.List.{AllByRecursion};
ghost use Rattle.sf_defs.specs.Rounds.{IsLegal};
ghost use Rattle.cause_defs.specs.Reports.{Reports};
ghost use Rattle.walk_defs.specs.step_defs.Steps.{step_head, plain_step};
ghost use Rattle.step_report.specs.Conditions.{CanPrint};
ghost use Rattle.step_report.specs.Pages.{FitsPages, details_of};

use crate::desk::PointLines;
use crate::pages::{Lines, Pages};
use crate::pen::Pen;
use crate::rounds::write_windows;
use crate::sums::write_sums;
use cause_defs::ReportFault;
use dist_number::{Bases, Numbers};
use dist_state::Dist;
use input_defs::{Show, Step};
use report::report_lines::{append_step_line, write_line};
use sf_fabric::Round;
use sf_graph::Forest;
use shelf_io::Sink;
use std::alloc::Global;

/// Writes the line of a step.
fn write_step_line<W: Sink>(
    line: &mut Vec<u8>,
    place: u32,
    step: &Step,
    out: &mut W,
) -> Result<(), ReportFault>
    ensures { Reports W.written W.flushed W.faults W.counts_failures_alone result out.old out.new (step_head place step.now) }
{
    line.clear();
    append_step_line(line, place, step)?;
    write_line(out, line)
}

/// Writes all lines of a step but the first.
fn write_details<W: Sink>(
    pages: &Pages<'_>,
    rounds: &[Round],
    show: &Show,
    pen: &mut Pen,
    out: &mut W,
) -> Result<(), ReportFault>
    requires fits { FitsPages pages.now }
    requires rounds { AllByRecursion IsLegal rounds.now }
    ensures { Reports W.written W.flushed W.faults W.counts_failures_alone result out.old out.new (details_of pages.now rounds.now show.now) }
{
    pages.write_all(Lines::Ranks, pen, out)?;
    pages.write_all(Lines::Ghosts, pen, out)?;
    pages.write_total(&mut pen.line, out)?;
    pages.write_where(show.points, PointLines::Owned, pen, out)?;
    pages.write_where(show.local, PointLines::Held, pen, out)?;
    pages.write_where(show.closure, PointLines::Closures, pen, out)?;
    pages.write_where(show.trace, PointLines::Traces, pen, out)?;
    write_windows(show.windows, &mut pen.line, rounds, out)
}

/// Writes the lines of step `place`, from 0, of a plan: of the distribution after it, the bases of the
/// ranks, the numbers of the points that they hold, the trace of the points that they own, and the
/// rounds of the step. `show` says which lines; each with its LF is one `write`.
///
/// Each rank has a base, each point that it holds a number, and each point that it owns a leaf of the
/// trace, in local order; owners are ranks; the rounds are legal.
///
/// Fails where the sink does, or for want of memory. Then nothing, or a part of the text from its
/// beginning, is added.
pub fn write_step<W: Sink>(
    alloc: Global,
    place: u32,
    step: &Step,
    d: &Dist,
    bases: &Bases,
    numbers: &Numbers,
    trace: &Forest,
    rounds: &[Round],
    show: &Show,
    out: &mut W,
) -> Result<(), ReportFault>
    requires { CanPrint (record { place = place; step = step.now; dist = d.now; bases = bases.now.bases; numbers = numbers.now; trace = trace.now; rounds = rounds.now; show = show.now }) }
    ensures { Reports W.written W.flushed W.faults W.counts_failures_alone result out.old out.new
        (plain_step (record { place = place; step = step.now; dist = d.now; bases = bases.now.bases; numbers = numbers.now; trace = trace.now; rounds = rounds.now; show = show.now })) }
{
    let pages = Pages {
        dist: d,
        bases,
        numbers,
        trace,
    };
    let mut pen = Pen {
        line: Vec::new(alloc),
        closure: Vec::new(alloc),
    };
    write_step_line(&mut pen.line, place, step, out)?;
    if show.summary {
        return write_sums(&mut pen.line, d, out);
    }
    write_details(&pages, rounds, show, &mut pen, out)
}
