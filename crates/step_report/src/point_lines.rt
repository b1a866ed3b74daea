//! The line of a point, of each kind.

ghost use Rattle.std.specs.Prelude.{◌≡◌, ◌++◌, ◌<◌, length, OnOk};
ghost use Rattle.walk_defs.specs.step_defs.Steps.{place_at_owner};
ghost use Rattle.step_report.specs.declared.desk.PointLines.TheVariants as kinds;
ghost use Rattle.step_report.specs.Desks.{FitsDesk, HasLeaf, line_of};

use crate::desk::{Desk, PointLines};
use crate::pen::Pen;
use crate::tails::{append_local_tail, append_name, append_numbered, append_numbered_tail};
use plex_base::NoMemory;
use plex_walk::closure_into;
use report::report_lines::{append_also, append_field, append_trace_line};
use sf_graph::Forest;

/// An owned point under its number.
#[tactic(auto, unfolding(walk_defs::specs::step_defs::Steps::point_line), using(std::proofs::Common::append_assoc))]
fn append_owned(desk: &Desk<'_>, line: &mut Vec<u8>, p: u32) -> Result<(), NoMemory>
    requires fits { FitsDesk desk.now }
    requires p { p < length desk.now.local.now.diagram.points }
    ensures { OnOk result (line.new.items ≡ line.old.items ++ line_of kinds.Owned desk.now (0, p)) }
{
    append_field(line, b"P ", desk.numbers.of(desk.rank, p))?;
    line.push(b' ')?;
    append_name(line, desk.local, p)?;
    append_numbered_tail(line, desk.local, desk.sections, desk.numbers, desk.rank, p)?;
    line.push(b'\n')?;
    Ok(())
}

/// The local number of a point at its owner: another rank's points are leaves on it.
fn place_at_owner(points: &Forest, rank: u32, p: u32) -> u32
    requires { rank < length points.now.roots }
    ensures { result ≡ place_at_owner points.now rank p }
{
    match points.root_of(rank, p) {
        Some((_, place)) => place,
        None => p,
    }
}

/// A held point under its local number, with its owner and its place there.
#[tactic(auto, unfolding(walk_defs::specs::step_defs::Steps::local_line), using(std::proofs::Common::append_assoc))]
fn append_held(desk: &Desk<'_>, line: &mut Vec<u8>, p: u32) -> Result<(), NoMemory>
    requires fits { FitsDesk desk.now }
    requires p { p < length desk.now.local.now.diagram.points }
    ensures { OnOk result (line.new.items ≡ line.old.items ++ line_of kinds.Held desk.now (0, p)) }
{
    let place = place_at_owner(desk.points, desk.rank, p);
    append_field(line, b"L ", u64::from(desk.rank))?;
    append_also(line, u64::from(p))?;
    line.push(b' ')?;
    append_name(line, desk.local, p)?;
    append_also(line, u64::from(desk.local.owner(p)))?;
    append_also(line, u64::from(place))?;
    append_local_tail(line, desk.local, desk.sections, p)?;
    line.push(b'\n')?;
    Ok(())
}

/// The closure of a cell, by numbers.
#[tactic(auto, unfolding(headline_defs::specs::Lines::closure_line), using(std::proofs::Common::append_assoc))]
fn append_closure(desk: &Desk<'_>, pen: &mut Pen, p: u32) -> Result<(), NoMemory>
    requires fits { FitsDesk desk.now }
    requires p { p < length desk.now.local.now.diagram.points }
    ensures { OnOk result (pen.new.line.items ≡ pen.old.line.items ++ line_of kinds.Closures desk.now (0, p)) }
{
    closure_into(desk.local.plex(), p, 0, &mut pen.closure)?;
    append_field(&mut pen.line, b"C ", desk.numbers.of(desk.rank, p))?;
    append_numbered(&mut pen.line, desk.numbers, desk.rank, &pen.closure)?;
    pen.line.push(b'\n')?;
    Ok(())
}

/// The trace of the owned point with so many others before it.
fn append_trace(desk: &Desk<'_>, line: &mut Vec<u8>, before: u32, p: u32) -> Result<(), NoMemory>
    requires fits { FitsDesk desk.now }
    requires p { p < length desk.now.local.now.diagram.points }
    requires leaf { HasLeaf kinds.Traces desk.now before }
    ensures { OnOk result (line.new.items ≡ line.old.items ++ line_of kinds.Traces desk.now (before, p)) }
{
    let leaf = desk.trace.leaf(desk.rank, before);
    append_trace_line(line, desk.numbers.of(desk.rank, p), leaf.rank, leaf.index)
}

/// The line of a kind of point `p`, before which so many have one.
pub(crate) fn append_line(
    desk: &Desk<'_>,
    kind: PointLines,
    pen: &mut Pen,
    before: u32,
    p: u32,
) -> Result<(), NoMemory>
    requires fits { FitsDesk desk.now }
    requires p { p < length desk.now.local.now.diagram.points }
    requires leaf { HasLeaf kind desk.now before }
    ensures { OnOk result (pen.new.line.items ≡ pen.old.line.items ++ line_of kind desk.now (before, p)) }
{
    match kind {
        PointLines::Owned => append_owned(desk, &mut pen.line, p),
        PointLines::Held => append_held(desk, &mut pen.line, p),
        PointLines::Closures => append_closure(desk, pen, p),
        PointLines::Traces => append_trace(desk, &mut pen.line, before, p),
    }
}
