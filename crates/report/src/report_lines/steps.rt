//! The lines of a step that are of a whole rank, of all ranks, or of the step.

ghost use Rattle.std.specs.Prelude.{◌≡◌, ◌++◌, OnOk, decimal};
ghost use Rattle.input_defs.specs.line_defs.Numbers.{fixed_text};
ghost use Rattle.input_defs.specs.text_defs.Text.{rank_line, total_line};
ghost use Rattle.headline_defs.specs.Lines.{also, ghost_line, trace_line, sum_line};
ghost use Rattle.walk_defs.specs.step_defs.Steps.{step_head};
ghost use Rattle.report.specs.report_lines.Sums.{sum_counts, sum_values};

use crate::report_lines::numbers::{append_also, append_field};
use input_defs::Step;
use itoa::Buffer;
use plex_base::NoMemory;
use scan::print_fixed;

/// The line of step `place`, from 0: a part, or layers of overlap.
///
/// Fails only for want of memory.
#[tactic(auto, unfolding(input_defs::specs::text_defs::Text::step_line, headline_defs::specs::Lines::move_line), using(std::proofs::Common::append_assoc))]
pub fn append_step_line(line: &mut Vec<u8>, place: u32, step: &Step) -> Result<(), NoMemory>
    ensures { OnOk result (line.new.items ≡ line.old.items ++ step_head place step.now) }
{
    append_field(line, b"step ", u64::from(place))?;
    match *step {
        Step::Part => line.extend_from_slice(b" part")?,
        Step::Overlap(layers) => append_field(line, b" overlap ", u64::from(layers))?,
    }
    line.push(b'\n')?;
    Ok(())
}

/// How many points a rank has.
#[derive(Clone, Copy, Debug)]
pub struct RankCounts {
    /// The cells that are assigned to it.
    pub cells: u32,
    pub held: u32,
    pub owned: u32,
}

/// The line of a rank: its assigned cells, the points that it holds and owns, and the base of its
/// numbers.
///
/// Fails only for want of memory.
#[tactic(auto, unfolding(input_defs::specs::text_defs::Text::rank_line), using(std::proofs::Common::append_assoc))]
pub fn append_rank_line(
    line: &mut Vec<u8>,
    rank: u32,
    counts: RankCounts,
    base: u64,
) -> Result<(), NoMemory>
    ensures { OnOk result (line.new.items ≡ line.old.items ++ rank_line rank counts.cells counts.held counts.owned base) }
{
    append_field(line, b"rank ", u64::from(rank))?;
    append_field(line, b" cells ", u64::from(counts.cells))?;
    append_field(line, b" held ", u64::from(counts.held))?;
    append_field(line, b" owned ", u64::from(counts.owned))?;
    append_field(line, b" base ", base)?;
    line.push(b'\n')?;
    Ok(())
}

/// The line of a rank that holds so many points that another rank owns.
///
/// Fails only for want of memory.
#[tactic(auto, unfolding(headline_defs::specs::Lines::ghost_line), using(std::proofs::Common::append_assoc))]
pub fn append_ghost_line(
    line: &mut Vec<u8>,
    rank: u32,
    owner: u32,
    count: u32,
) -> Result<(), NoMemory>
    ensures { OnOk result (line.new.items ≡ line.old.items ++ ghost_line rank owner count) }
{
    append_field(line, b"ghost ", u64::from(rank))?;
    append_also(line, u64::from(owner))?;
    append_also(line, u64::from(count))?;
    line.push(b'\n')?;
    Ok(())
}

/// How many points all ranks own, and how many of them are of each dimension.
#[derive(Clone, Copy, Debug)]
pub struct Totals {
    pub points: u64,
    pub cells: u64,
    pub vertices: u64,
    /// Of a solid mesh; otherwise 0.
    pub faces: u64,
    pub edges: u64,
}

/// The line of the points that all ranks own.
///
/// Fails only for want of memory.
#[tactic(auto, unfolding(input_defs::specs::text_defs::Text::total_line), using(std::proofs::Common::append_assoc))]
pub fn append_total_line(line: &mut Vec<u8>, totals: &Totals) -> Result<(), NoMemory>
    ensures { OnOk result (line.new.items ≡ line.old.items ++ total_line totals.now.points totals.now.cells totals.now.vertices totals.now.faces totals.now.edges) }
{
    append_field(line, b"total ", totals.points)?;
    append_field(line, b" cells ", totals.cells)?;
    append_field(line, b" vertices ", totals.vertices)?;
    append_field(line, b" faces ", totals.faces)?;
    append_field(line, b" edges ", totals.edges)?;
    line.push(b'\n')?;
    Ok(())
}

/// The line of the trace of a point: the rank that owned it under the first part, and its local number
/// there.
///
/// Fails only for want of memory.
#[tactic(auto, unfolding(headline_defs::specs::Lines::trace_line), using(std::proofs::Common::append_assoc))]
pub fn append_trace_line(
    line: &mut Vec<u8>,
    number: u64,
    rank: u32,
    local: u32,
) -> Result<(), NoMemory>
    ensures { OnOk result (line.new.items ≡ line.old.items ++ trace_line number rank local) }
{
    append_field(line, b"T ", number)?;
    append_also(line, u64::from(rank))?;
    append_also(line, u64::from(local))?;
    line.push(b'\n')?;
    Ok(())
}

/// The sums of a step.
#[derive(Clone, Copy, Debug)]
pub struct Sums {
    /// The points that ranks hold.
    pub held: u64,
    /// The points that ranks own.
    pub owned: u64,
    /// The cone entries of owned points.
    pub entries: u64,
    /// Those with a negative orientation.
    pub back: u64,
    /// All coordinates of owned vertices, in 10^-10.
    pub at: i128,
    /// All data at owned points, in 10^-10.
    pub values: i128,
    /// All words of `dofs` at owned points.
    pub dofs: u128,
}

/// The points, entries and orientations of a line of sums.
#[tactic(auto, using(std::proofs::Common::append_assoc))]
fn append_sum_counts(line: &mut Vec<u8>, sums: &Sums) -> Result<(), NoMemory>
    ensures { OnOk result (line.new.items ≡ line.old.items ++ sum_counts sums.now.held sums.now.owned sums.now.entries sums.now.back) }
{
    append_field(line, b"sum held ", sums.held)?;
    append_field(line, b" owned ", sums.owned)?;
    append_field(line, b" entries ", sums.entries)?;
    append_field(line, b" back ", sums.back)
}

/// The coordinates, data and words of a line of sums.
#[tactic(auto, using(std::proofs::Common::append_assoc))]
fn append_sum_values(line: &mut Vec<u8>, at: i128, values: i128, dofs: u128) -> Result<(), NoMemory>
    ensures { OnOk result (line.new.items ≡ line.old.items ++ sum_values at values dofs) }
{
    line.extend_from_slice(b" at ")?;
    print_fixed(at, line)?;
    line.extend_from_slice(b" data ")?;
    print_fixed(values, line)?;
    line.extend_from_slice(b" dofs ")?;
    line.extend_from_slice(Buffer::new().format(dofs).as_bytes())?;
    Ok(())
}

/// The line of the sums of a step.
///
/// Fails only for want of memory.
#[tactic(auto, unfolding(headline_defs::specs::Lines::sum_line), using(std::proofs::Common::append_assoc))]
pub fn append_sum_line(line: &mut Vec<u8>, sums: &Sums) -> Result<(), NoMemory>
    ensures { OnOk result (line.new.items ≡ line.old.items ++ sum_line sums.now.held sums.now.owned sums.now.entries sums.now.back sums.now.at sums.now.values sums.now.dofs) }
{
    append_sum_counts(line, sums)?;
    append_sum_values(line, sums.at, sums.values, sums.dofs)?;
    line.push(b'\n')?;
    Ok(())
}
