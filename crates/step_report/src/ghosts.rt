//! The points of a rank that other ranks own.

ghost use Rattle.std.specs.Prelude.{◌≡◌, ◌<◌, ◌≤◌, length};
ghost use Rattle.std.specs.List.{AllByRecursion};
ghost use Rattle.cause_defs.specs.Reports.{Reports};
ghost use Rattle.walk_defs.specs.step_defs.Points.{owned_by};
ghost use Rattle.walk_defs.specs.step_defs.Steps.{plain_ghosts};
ghost use Rattle.step_report.specs.Ghosts.{ghost_text};

use crate::counts::count_owners;
use cause_defs::ReportFault;
use dist_state::RankMesh;
use report::report_lines::{append_ghost_line, write_line};
use shelf_io::Sink;

/// Writes the line of the points of a rank that another one owns, where there are some.
fn write_ghosts_of<W: Sink>(
    line: &mut Vec<u8>,
    rank: u32,
    owner: u32,
    count: u32,
    out: &mut W,
) -> Result<(), ReportFault>
    ensures { Reports W.written W.flushed W.faults W.counts_failures_alone result out.old out.new (ghost_text rank owner count) }
{
    if rank == owner || count == 0 {
        return Ok(());
    }
    line.clear();
    append_ghost_line(line, rank, owner, count)?;
    write_line(out, line)
}

/// Writes the lines of the ghosts of a rank, by owner.
pub(crate) fn write_ghosts<W: Sink>(
    line: &mut Vec<u8>,
    rank: u32,
    local: &RankMesh,
    ranks: u32,
    out: &mut W,
) -> Result<(), ReportFault>
    requires few { ranks ≤ 64 }
    requires owners { AllByRecursion (λ o. o < ranks) local.now.owners }
    ensures { Reports W.written W.flushed W.faults W.counts_failures_alone result out.old out.new (plain_ghosts ranks (rank, local.now)) }
{
    let counts = count_owners(local, ranks);
    for owner in 0..ranks {
        write_ghosts_of(line, rank, owner, counts[owner as usize], out)?;
    }
    Ok(())
}
