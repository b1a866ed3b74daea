//! The leaves that ranks join after the meeting.
ghost use Rattle.std.specs.Prelude.{◌≡◌, ◌<◌, ◌++◌, length, IfOk, OnOk};
ghost use Rattle.rank_chart_laws.specs.meeting_laws.Sets.{AreRankCharts};
ghost use Rattle.rank_chart_laws.specs.meeting_laws.Steps.{candidates, joined_leaves, joined_sets, joined_vertices};

use crate::charts::RankCharts;
use crate::vertices::place_of;
use plex_base::NoMemory;
use sf_graph::Leaf;
use std::alloc::Global;

/// The leaves of a rank: its vertices that others own, and its candidates that met one of an earlier
/// rank, by rising place.
pub(crate) fn joined_leaves<C: RankCharts>(
    alloc: Global,
    charts: &C,
    rank: u32,
    places: &[u32],
    met: &[u64],
) -> Result<Vec<Leaf>, NoMemory>
    requires right { AreRankCharts (C.charts charts.now) }
    requires rank { rank < length (C.charts charts.now) }
    requires places { places.now ≡ candidates (C.charts charts.now) rank }
    requires count { length met.now ≡ length places.now }
    ensures { IfOk result (λ leaves. leaves.items ≡ joined_leaves (C.charts charts.now) rank met.now) }
{
    let mut leaves = Vec::new(alloc);
    push_ghosts(&mut leaves, charts, rank)?;
    push_met(&mut leaves, charts, rank, places, met)?;
    Ok(leaves)
}

/// Puts the vertices of a rank that others own behind what is there.
fn push_ghosts<C: RankCharts>(leaves: &mut Vec<Leaf>, charts: &C, rank: u32) -> Result<(), NoMemory>
    requires right { AreRankCharts (C.charts charts.now) }
    requires rank { rank < length (C.charts charts.now) }
    ensures { OnOk result (leaves.new.items ≡ leaves.old.items ++ joined_vertices (C.charts charts.now) rank) }
{
    let vertices = charts.vertices(rank);
    let cells = charts.cells(rank);
    for i in 0..vertices.len() {
        let owner = charts.owner(rank, i);
        if owner != rank {
            leaves.push(Leaf {
                local: cells + i as u32,
                rank: owner,
                index: charts.cells(owner) + place_of(charts.vertices(owner), vertices[i]),
            })?;
        }
    }
    Ok(())
}

/// Puts the candidates of a rank that met one of an earlier rank behind what is there.
fn push_met<C: RankCharts>(
    leaves: &mut Vec<Leaf>,
    charts: &C,
    rank: u32,
    places: &[u32],
    met: &[u64],
) -> Result<(), NoMemory>
    requires right { AreRankCharts (C.charts charts.now) }
    requires rank { rank < length (C.charts charts.now) }
    requires places { places.now ≡ candidates (C.charts charts.now) rank }
    requires count { length met.now ≡ length places.now }
    ensures { OnOk result (leaves.new.items ≡ leaves.old.items ++ joined_sets (C.charts charts.now) rank met.now) }
{
    let first = charts.cells(rank) + charts.vertices(rank).len() as u32;
    for j in 0..places.len() {
        let first_rank = (met[j] / 4294967296) as u32;
        if first_rank != rank {
            leaves.push(Leaf {
                local: first + places[j],
                rank: first_rank,
                index: (met[j] % 4294967296) as u32,
            })?;
        }
    }
    Ok(())
}
