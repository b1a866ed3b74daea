//! The lines of a step that are of its ranks, one rank after another.

ghost use Rattle.std.specs.Prelude.{◌≡◌, ◌<◌, length, flat_map};
ghost use Rattle.cause_defs.specs.Reports.{Reports};
ghost use Rattle.headline_defs.specs.StepText.{where_shown};
ghost use Rattle.walk_defs.specs.step_defs.Steps.{ranks_of, plain_rank, plain_total};
ghost use Rattle.step_report.specs.Conditions.{local_at};
ghost use Rattle.step_report.specs.declared.pages.Lines.TheVariants as kinds;
ghost use Rattle.step_report.specs.Desks.{plain_lines};
ghost use Rattle.step_report.specs.Pages.{FitsPages, lines_on, all_lines};

use crate::counts::count_owned;
use crate::desk::{Desk, PointLines};
use crate::ghosts::write_ghosts;
use crate::pen::Pen;
use crate::totals::append_total;
use cause_defs::ReportFault;
use dist_number::{Bases, Numbers};
use dist_state::{Dist, RankMesh};
use report::report_lines::{RankCounts, append_rank_line, write_line};
use sf_graph::Forest;
use shelf_io::Sink;

/// The kinds of lines that ranks have.
#[derive(Clone, Copy, Debug, PartialEq, Eq)]
pub enum Lines {
    /// `rank`: each rank's points.
    Ranks,
    /// `ghost`: how many points of a rank other ranks own.
    Ghosts,
    Points(PointLines),
}

/// What the lines of ranks are made of.
#[derive(Clone, Copy)]
pub(crate) struct Pages<'a> {
    pub dist: &'a Dist,
    pub bases: &'a Bases,
    pub numbers: &'a Numbers,
    /// A leaf for each owned point, on the place that it had under the first part.
    pub trace: &'a Forest,
}

/// Writes the line of a rank.
#[tactic(auto, unfolding(walk_defs::specs::step_defs::Steps::plain_rank))]
fn write_rank<W: Sink>(
    line: &mut Vec<u8>,
    rank: u32,
    local: &RankMesh,
    bases: &Bases,
    out: &mut W,
) -> Result<(), ReportFault>
    requires { rank < length bases.now.bases }
    ensures { Reports W.written W.flushed W.faults W.counts_failures_alone result out.old out.new (plain_rank bases.now.bases (rank, local.now)) }
{
    let plex = local.plex();
    let points = plex.chart();
    let owned = count_owned(local, rank);
    let counts = RankCounts {
        cells: owned.by_dim[plex.dim().number() as usize],
        held: points,
        owned: owned.owned,
    };
    line.clear();
    append_rank_line(line, rank, counts, bases.base(rank))?;
    write_line(out, line)
}

impl Pages<'_> {
    /// Writes the lines of the points of a rank.
    fn write_points<W: Sink>(
        &self,
        kind: PointLines,
        rank: u32,
        pen: &mut Pen,
        out: &mut W,
    ) -> Result<(), ReportFault>
        requires fits { FitsPages self.now }
        requires rank { rank < length self.now.dist.now.locals }
        ensures { Reports W.written W.flushed W.faults W.counts_failures_alone result out.old out.new
            (plain_lines kind self.now.dist.now.sections self.now.dist.now.points self.now.numbers.now self.now.trace.now (rank, local_at self.now.dist.now rank)) }
    {
        let _ranks = self.dist.ranks();
        let local = self.dist.local(rank);
        let _plex = local.plex();
        let desk = Desk {
            rank,
            local,
            sections: self.dist.sections(),
            points: self.dist.points(),
            numbers: self.numbers,
            trace: self.trace,
        };
        desk.write_lines(kind, pen, out)
    }

    /// Writes the lines that a rank has.
    fn write_on<W: Sink>(
        &self,
        kind: Lines,
        rank: u32,
        pen: &mut Pen,
        out: &mut W,
    ) -> Result<(), ReportFault>
        requires fits { FitsPages self.now }
        requires rank { rank < length self.now.dist.now.locals }
        ensures { Reports W.written W.flushed W.faults W.counts_failures_alone result out.old out.new (lines_on kind self.now (rank, local_at self.now.dist.now rank)) }
    {
        let local = self.dist.local(rank);
        match kind {
            Lines::Ranks => write_rank(&mut pen.line, rank, local, self.bases, out),
            Lines::Ghosts => write_ghosts(&mut pen.line, rank, local, self.dist.ranks(), out),
            Lines::Points(points) => self.write_points(points, rank, pen, out),
        }
    }

    /// Writes the lines of a kind of all ranks.
    pub(crate) fn write_all<W: Sink>(
        &self,
        kind: Lines,
        pen: &mut Pen,
        out: &mut W,
    ) -> Result<(), ReportFault>
        requires { FitsPages self.now }
        ensures { Reports W.written W.flushed W.faults W.counts_failures_alone result out.old out.new (all_lines kind self.now) }
    {
        for rank in 0..self.dist.ranks() {
            self.write_on(kind, rank, pen, out)?;
        }
        Ok(())
    }

    /// Writes the lines of points of a kind, where they are shown.
    pub(crate) fn write_where<W: Sink>(
        &self,
        shown: bool,
        kind: PointLines,
        pen: &mut Pen,
        out: &mut W,
    ) -> Result<(), ReportFault>
        requires { FitsPages self.now }
        ensures { Reports W.written W.flushed W.faults W.counts_failures_alone result out.old out.new (where_shown shown (all_lines (kinds.Points kind) self.now)) }
    {
        if shown {
            return self.write_all(Lines::Points(kind), pen, out);
        }
        Ok(())
    }

    /// Writes the line of all ranks' points.
    pub(crate) fn write_total<W: Sink>(
        &self,
        line: &mut Vec<u8>,
        out: &mut W,
    ) -> Result<(), ReportFault>
        ensures { Reports W.written W.flushed W.faults W.counts_failures_alone result out.old out.new (plain_total (ranks_of self.now.dist.now)) }
    {
        line.clear();
        append_total(line, self.dist)?;
        write_line(out, line)
    }
}
