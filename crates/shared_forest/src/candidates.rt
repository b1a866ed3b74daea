//! Which faces and edges may be shared.
ghost use Rattle.std.specs.Prelude.{◌≡◌, ◌<◌, length, IfOk};
ghost use Rattle.rank_chart_laws.specs.meeting_laws.Sets.{AreRankCharts};
ghost use Rattle.rank_chart_laws.specs.meeting_laws.Steps.{candidates, vertex_forest};
ghost use Rattle.shared_forest.specs.Flags.{AreFlagged, all_up};

use crate::charts::{NO_VERTEX, RankCharts};
use crate::copied::copied_flags;
use plex_base::NoMemory;
use sf_graph::Forest;
use std::alloc::Global;

/// The places of the sets of a rank that may be shared: each vertex of such a set has a copy on another
/// rank.
pub(crate) fn candidates<C: RankCharts>(
    alloc: Global,
    charts: &C,
    copies: &Forest,
    rank: u32,
) -> Result<Vec<u32>, NoMemory>
    requires right { AreRankCharts (C.charts charts.now) }
    requires rank { rank < length (C.charts charts.now) }
    requires copies { copies.now ≡ vertex_forest (C.charts charts.now) }
    ensures { IfOk result (λ places. places.items ≡ candidates (C.charts charts.now) rank) }
{
    let sets = charts.sets(rank);
    let flags = copied_flags(alloc, charts, copies, rank)?;
    let mut places = Vec::new(alloc);
    for k in 0..sets.len() {
        if all_up(&flags, &sets[k]) {
            places.push(k as u32)?;
        }
    }
    Ok(places)
}

/// Whether each vertex of a set has its flag up.
fn all_up(flags: &[bool], set: &[u32; 4]) -> bool
    requires { AreFlagged flags.now set.now }
    ensures { result ≡ all_up flags.now set.now }
{
    for vertex in set {
        if *vertex != NO_VERTEX && !flags[*vertex as usize] {
            return false;
        }
    }
    true
}
