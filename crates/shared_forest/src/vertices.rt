//! The forest of the vertices alone.
ghost use Rattle.std.specs.Prelude.{◌≡◌, ◌==◌, ◌^◌, ◌<◌, true, length, map, IfOk};
ghost use Rattle.std.specs.List.{list_any, position_or_len};
ghost use Rattle.plain_lists.specs.Vectors.{lists_of};
ghost use Rattle.sf_graph.specs.Parts.{forest_of, IsForRanks};
ghost use Rattle.rank_chart_laws.specs.meeting_laws.Sets.{AreRankCharts, RankChart, Rising, chart_at};
ghost use Rattle.rank_chart_laws.specs.meeting_laws.Steps.{ghost_leaves, vertex_forest};

use crate::charts::RankCharts;
use plex_base::NoMemory;
use sf_graph::{Forest, Leaf};
use std::alloc::Global;

/// The place of a vertex among rising ones.
pub(crate) fn place_of(vertices: &[u32], vertex: u32) -> u32
    requires rising { Rising vertices.now }
    requires there { list_any (λ w. w == vertex) vertices.now ≡ true }
    requires few { length vertices.now < 2 ^ 32 }
    ensures { result ≡ position_or_len (λ w. w == vertex) vertices.now }
{
    match vertices.binary_search(&vertex) {
        Ok(place) => place as u32,
        Err(place) => place as u32,
    }
}

/// The forest of the vertices: its roots are the vertices of each rank, and its leaves those that other
/// ranks own, each on the same vertex of its owner.
pub(crate) fn vertex_forest<C: RankCharts>(alloc: Global, charts: &C) -> Result<Forest, NoMemory>
    requires { AreRankCharts (C.charts charts.now) }
    ensures { IfOk result (λ f. f ≡ vertex_forest (C.charts charts.now)) }
{
    let roots = vertex_counts(alloc, charts)?;
    let mut leaves = Vec::with_capacity(alloc, charts.ranks() as usize)?;
    for rank in 0..charts.ranks() {
        leaves.push(ghost_leaves(alloc, charts, rank)?)?;
    }
    made_of(alloc, roots, leaves)
}

/// The forest of these lists.
pub(crate) fn made_of(
    alloc: Global,
    roots: Vec<u32>,
    leaves: Vec<Vec<Leaf>>,
) -> Result<Forest, NoMemory>
    requires { IsForRanks (forest_of roots.items (lists_of leaves.items)) }
    ensures { IfOk result (λ f. f ≡ forest_of roots.items (lists_of leaves.items)) }
{
    Forest::new(alloc, roots, leaves).map_err(|_| NoMemory)
}

/// How many vertices each rank has.
pub(crate) fn vertex_counts<C: RankCharts>(alloc: Global, charts: &C) -> Result<Vec<u32>, NoMemory>
    requires { AreRankCharts (C.charts charts.now) }
    ensures { IfOk result (λ counts. counts.items ≡ map (λ (c : RankChart). length c.vertices) (C.charts charts.now)) }
{
    let mut counts = Vec::with_capacity(alloc, charts.ranks() as usize)?;
    for rank in 0..charts.ranks() {
        counts.push(charts.vertices(rank).len() as u32)?;
    }
    Ok(counts)
}

/// The vertices of a rank that others own, as leaves on their owners.
fn ghost_leaves<C: RankCharts>(alloc: Global, charts: &C, rank: u32) -> Result<Vec<Leaf>, NoMemory>
    requires right { AreRankCharts (C.charts charts.now) }
    requires rank { rank < length (C.charts charts.now) }
    ensures { IfOk result (λ leaves. leaves.items ≡ ghost_leaves (C.charts charts.now) rank) }
{
    let vertices = charts.vertices(rank);
    let mut leaves = Vec::new(alloc);
    for i in 0..vertices.len() {
        let owner = charts.owner(rank, i);
        if owner != rank {
            leaves.push(Leaf {
                local: i as u32,
                rank: owner,
                index: place_of(charts.vertices(owner), vertices[i]),
            })?;
        }
    }
    Ok(leaves)
}
