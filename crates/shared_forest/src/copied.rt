//! Which vertices of a rank other ranks have too.
ghost use Rattle.std.specs.Prelude.{◌≡◌, ℕ, ◌<◌, get_or, length, IfOk};
ghost use Rattle.rank_chart_laws.specs.meeting_laws.Sets.{AreRankCharts, Rising, chart_at};
ghost use Rattle.rank_chart_laws.specs.meeting_laws.Steps.{is_copied, vertex_at, vertex_forest};
ghost use Rattle.shared_forest.specs.Flags.{TellCopies};

use crate::charts::RankCharts;
use plex_base::NoMemory;
use sf_graph::Forest;
use std::alloc::Global;

/// For each vertex of a rank, at its position in the whole mesh, whether another rank has it too.
pub(crate) fn copied_flags<C: RankCharts>(
    alloc: Global,
    charts: &C,
    copies: &Forest,
    rank: u32,
) -> Result<Vec<bool>, NoMemory>
    requires right { AreRankCharts (C.charts charts.now) }
    requires rank { rank < length (C.charts charts.now) }
    requires copies { copies.now ≡ vertex_forest (C.charts charts.now) }
    ensures { IfOk result (λ flags. TellCopies (C.charts charts.now) rank flags.items) }
{
    let vertices = charts.vertices(rank);
    let mut flags = vec![in alloc; false; bound_of(vertices)]?;
    for i in 0..vertices.len() {
        flags[vertices[i] as usize] = is_copied(charts, copies, rank, i as u32);
    }
    Ok(flags)
}

/// A number above all of these rising vertices.
fn bound_of(vertices: &[u32]) -> usize
    requires { Rising vertices.now }
    ensures { (i : ℕ) → i < length vertices.now → get_or vertices.now i 0 < result }
{
    match vertices.last() {
        Some(last) => *last as usize + 1,
        None => 0,
    }
}

/// Whether another rank has the vertex at this place too.
fn is_copied<C: RankCharts>(charts: &C, copies: &Forest, rank: u32, place: u32) -> bool
    requires right { AreRankCharts (C.charts charts.now) }
    requires rank { rank < length (C.charts charts.now) }
    requires copies { copies.now ≡ vertex_forest (C.charts charts.now) }
    requires place { place < length (chart_at (C.charts charts.now) rank).vertices }
    ensures { result ≡ is_copied (C.charts charts.now) rank (vertex_at (chart_at (C.charts charts.now) rank) place) }
{
    charts.owner(rank, place as usize) != rank || copies.degree(rank, place) > 0
}
