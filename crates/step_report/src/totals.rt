//! How many points all ranks own.

ghost use Rattle.std.specs.Prelude.{◌≡◌, ◌+◌, ◌<◌, ◌==◌, ◌++◌, if◌then◌else◌, length, get_or, OnOk};
ghost use Rattle.plex_base.specs.Dim.{dim_number};
ghost use Rattle.walk_defs.specs.step_defs.Steps.{ranks_of, plain_total};
ghost use Rattle.step_report.specs.Counts.{AreTotals};

use crate::counts::{Counts, count_owned};
use dist_state::Dist;
use plex_base::{Dim, NoMemory};
use report::report_lines::{Totals, append_total_line};

/// The faces among counted points: those of a solid mesh.
fn faces(dim: Dim, counts: &Counts) -> u32
    requires { length counts.now.by_dim ≡ 4 }
    ensures { result ≡ if dim_number dim == 3 then get_or counts.now.by_dim 2 0 else 0 }
{
    match dim {
        Dim::Three => counts.by_dim[2],
        _ => 0,
    }
}

/// Adds what a rank owns to the totals of the ranks before it.
fn add_rank(totals: &mut Totals, d: &Dist, rank: u32)
    requires totals { AreTotals d.now rank totals.old }
    requires rank { rank < length d.now.locals }
    ensures { AreTotals d.now (rank + 1) totals.new }
{
    let local = d.local(rank);
    let plex = local.plex();
    let _points = plex.chart();
    let counts = count_owned(local, rank);
    totals.points += u64::from(counts.owned);
    totals.cells += u64::from(counts.by_dim[plex.dim().number() as usize]);
    totals.vertices += u64::from(counts.by_dim[0]);
    totals.faces += u64::from(faces(plex.dim(), &counts));
    totals.edges += u64::from(counts.by_dim[1]);
}

/// The points that all ranks own.
fn totals(d: &Dist) -> Totals
    ensures { AreTotals d.now (length d.now.locals) result }
{
    let mut totals = Totals {
        points: 0,
        cells: 0,
        vertices: 0,
        faces: 0,
        edges: 0,
    };
    for rank in 0..d.ranks() {
        add_rank(&mut totals, d, rank);
    }
    totals
}

/// The line of the points that all ranks own.
pub(crate) fn append_total(line: &mut Vec<u8>, d: &Dist) -> Result<(), NoMemory>
    ensures { OnOk result (line.new.items ≡ line.old.items ++ plain_total (ranks_of d.now)) }
{
    append_total_line(line, &totals(d))
}
