//! What one rank counts by itself.

ghost use Rattle.std.specs.Prelude.{◌≡◌, ℕ, ◌+◌, ◌≤◌, ◌<◌, ◌^◌, ◌==◌, length, count_by, get_or, IfOk};
ghost use Rattle.std.specs.List.{All};
ghost use Rattle.mesh_defs.specs.declared.ConeEntry.{ConeEntry as Entry};
ghost use Rattle.plex_chart.specs.Chart.{IsPlex};
ghost use Rattle.cells_at_vertices.specs.Own.{closure_counts, IsCounted};

use plex_base::NoMemory;
use plex_chart::{ConeEntry, Plex};
use plex_walk::closure_into;
use std::alloc::Global;

/// For each point of a diagram how many of its cells have the point in their closure, after
/// `DMPlexGetTransitiveClosure`. One list of entries serves all cells.
pub(crate) fn count_cells(alloc: Global, x: &Plex) -> Result<Vec<u64>, NoMemory>
    ensures counts { IfOk result (λ counts. counts.items ≡ closure_counts x.now) }
    ensures whole { IsPlex x.now }
{
    let mut counts = vec![in alloc; 0u64; x.chart() as usize]?;
    let mut closure = Vec::new(alloc);
    let cells = x.stratum(x.dim());
    for cell in cells.start..cells.end {
        closure_into(x, cell, 0, &mut closure)?;
        count_points(&closure, &mut counts);
    }
    Ok(counts)
}

/// Adds one at the point of each entry. No two entries are of one point.
fn count_points(closure: &[ConeEntry], counts: &mut Vec<u64>)
    requires within { All (λ (e : Entry). e.point < length counts.old.items) closure.now }
    requires once { (p : ℕ) → count_by (λ (e : Entry). e.point == p) closure.now ≤ 1 }
    requires low { (p : ℕ) → p < length counts.old.items → get_or counts.old.items p 0 < 2 ^ 32 }
    ensures { IsCounted closure.now counts.old.items counts.new.items }
{
    for entry in closure {
        counts[entry.point as usize] += 1;
    }
}
