//! A rank whose points are shown, one line each.

ghost use Rattle.std.specs.Prelude.{◌≡◌, ◌+◌, ◌<◌, length, IfOk};
ghost use Rattle.cause_defs.specs.Reports.{Reports};
ghost use Rattle.step_report.specs.Desks.{FitsDesk, HasLeaf, is_cell, has_line, line_of, next_text, lines_of, place_of};

use crate::pen::Pen;
use crate::point_lines::append_line;
use cause_defs::ReportFault;
use dist_number::Numbers;
use dist_state::RankMesh;
use poly_tables::dim;
use report::report_lines::write_line;
use sf_graph::Forest;
use shelf_io::Sink;

/// The kinds of lines that a rank has of its points.
#[derive(Clone, Copy, Debug, PartialEq, Eq)]
pub enum PointLines {
    /// `P`: the owned points.
    Owned,
    /// `L`: all points that the rank holds.
    Held,
    /// `C`: the closures of the owned cells.
    Closures,
    /// `T`: the traces of the owned points.
    Traces,
}

/// A rank with what its lines are made of.
#[derive(Clone, Copy)]
pub(crate) struct Desk<'a> {
    pub rank: u32,
    pub local: &'a RankMesh,
    /// How many of the fields, the first ones, are data sections.
    pub sections: u32,
    /// The forest of shared points.
    pub points: &'a Forest,
    pub numbers: &'a Numbers,
    /// A leaf for each owned point, on the place that it had under the first part.
    pub trace: &'a Forest,
}

impl Desk<'_> {
    /// Whether point `p` has a line of this kind.
    fn has_line(&self, kind: PointLines, p: u32) -> bool
        requires fits { FitsDesk self.now }
        requires p { p < length self.now.local.now.diagram.points }
        ensures { result ≡ has_line kind self.now p }
    {
        let is_own = self.local.owner(p) == self.rank;
        match kind {
            PointLines::Owned => is_own,
            PointLines::Held => true,
            PointLines::Closures => is_own && self.is_cell(p),
            PointLines::Traces => is_own,
        }
    }

    /// Whether point `p` is a cell.
    fn is_cell(&self, p: u32) -> bool
        requires { p < length self.now.local.now.diagram.points }
        ensures { result ≡ is_cell self.now p }
    {
        let plex = self.local.plex();
        dim(plex.poly_of(p)) == plex.dim().number()
    }

    /// Writes the line of point `p`, before which so many have a line of this kind.
    fn write_point<W: Sink>(
        &self,
        kind: PointLines,
        pen: &mut Pen,
        before: u32,
        p: u32,
        out: &mut W,
    ) -> Result<(), ReportFault>
        requires fits { FitsDesk self.now }
        requires p { p < length self.now.local.now.diagram.points }
        requires leaf { HasLeaf kind self.now before }
        ensures { Reports W.written W.flushed W.faults W.counts_failures_alone result out.old out.new (line_of kind self.now (before, p)) }
    {
        pen.line.clear();
        append_line(self, kind, pen, before, p)?;
        write_line(out, &pen.line)
    }

    /// Writes the line of point `p`, where it has one. Answers how many points have one up to here.
    fn write_next<W: Sink>(
        &self,
        kind: PointLines,
        pen: &mut Pen,
        before: u32,
        p: u32,
        out: &mut W,
    ) -> Result<u32, ReportFault>
        requires fits { FitsDesk self.now }
        requires p { p < length self.now.local.now.diagram.points }
        requires before { before ≡ place_of kind self.now p }
        requires last { p < 4294967295 }
        ensures text { Reports W.written W.flushed W.faults W.counts_failures_alone result out.old out.new (next_text kind self.now p) }
        ensures next { IfOk result (λ n. n ≡ place_of kind self.now (p + 1)) }
    {
        if self.has_line(kind, p) {
            self.write_point(kind, pen, before, p, out)?;
            return Ok(before + 1);
        }
        Ok(before)
    }

    /// Writes all lines of a kind.
    pub(crate) fn write_lines<W: Sink>(
        &self,
        kind: PointLines,
        pen: &mut Pen,
        out: &mut W,
    ) -> Result<(), ReportFault>
        requires { FitsDesk self.now }
        ensures { Reports W.written W.flushed W.faults W.counts_failures_alone result out.old out.new (lines_of kind self.now) }
    {
        let mut before = 0;
        for p in 0..self.local.plex().chart() {
            before = self.write_next(kind, pen, before, p, out)?;
        }
        Ok(())
    }
}
