//! The forest of shared points.
ghost use Rattle.std.specs.Prelude.{◌≡◌, length, map, IfOk};
ghost use Rattle.plain_lists.specs.Lists.{below};
ghost use Rattle.plain_lists.specs.Vectors.{lists_of};
ghost use Rattle.sf_defs.specs.meeting.Meeting.{AreMet};
ghost use Rattle.rank_chart_laws.specs.meeting_laws.Sets.{AreRankCharts, forest_of_sets, point_count};
ghost use Rattle.rank_chart_laws.specs.meeting_laws.Steps.{all_ids, all_keys, candidates, joined_forest, meeting_forest, vertex_forest};

use crate::candidates::candidates;
use crate::charts::RankCharts;
use crate::joining::joined_leaves;
use crate::meeting::{meeting_ids, meeting_keys, meeting_leaves};
use crate::sf_meet::meet;
use crate::vertices::{made_of, vertex_counts, vertex_forest};
use plex_base::NoMemory;
use sf_fabric::Fabric;
use sf_graph::Forest;
use std::alloc::Global;

/// The star forest of the points that the ranks share: every point is a root, and the leaves of a rank are
/// its points that an earlier rank has too, by rising place, each on the same point of the first rank that
/// has it.
///
/// The charts are right (`AreRankCharts`): 1 to 64 ranks with fewer than 2^32 points in all; rising
/// vertices below 2^32 - 1, each owned by the first rank that has it; sets of two to four of the rank's
/// own vertices, of which equal ones are equal lists. No round is kept. `NoMemory` comes for want of memory
/// alone.
pub fn shared_forest<C: RankCharts, F: Fabric>(
    alloc: Global,
    charts: &C,
    fabric: &mut F,
) -> Result<Forest, NoMemory>
    requires { AreRankCharts (C.charts charts.now) }
    ensures forest { IfOk result (λ f. f ≡ forest_of_sets (C.charts charts.now)) }
    ensures kept { F.kept fabric.new ≡ F.kept fabric.old }
{
    let copies = vertex_forest(alloc, charts)?;
    let places = all_candidates(alloc, charts, &copies)?;
    let met = met_ids(alloc, charts, &places, fabric)?;
    joined_forest(alloc, charts, &places, &met)
}

/// The candidates of all ranks.
fn all_candidates<C: RankCharts>(
    alloc: Global,
    charts: &C,
    copies: &Forest,
) -> Result<Vec<Vec<u32>>, NoMemory>
    requires right { AreRankCharts (C.charts charts.now) }
    requires copies { copies.now ≡ vertex_forest (C.charts charts.now) }
    ensures { IfOk result (λ places. lists_of places.items ≡ map (candidates (C.charts charts.now)) (below (length (C.charts charts.now)))) }
{
    let mut places = Vec::with_capacity(alloc, charts.ranks() as usize)?;
    for rank in 0..charts.ranks() {
        places.push(candidates(alloc, charts, copies, rank)?)?;
    }
    Ok(places)
}

/// What the candidates of all ranks met: the least id of each set.
fn met_ids<C: RankCharts, F: Fabric>(
    alloc: Global,
    charts: &C,
    places: &[Vec<u32>],
    fabric: &mut F,
) -> Result<Vec<Vec<u64>>, NoMemory>
    requires right { AreRankCharts (C.charts charts.now) }
    requires places { lists_of places.now ≡ map (candidates (C.charts charts.now)) (below (length (C.charts charts.now))) }
    ensures met { IfOk result (λ met. AreMet (meeting_forest (C.charts charts.now)) (all_keys (C.charts charts.now)) (all_ids (C.charts charts.now)) (lists_of met.items)) }
    ensures kept { F.kept fabric.new ≡ F.kept fabric.old }
{
    let forest = meeting_forest(alloc, charts, places)?;
    let keys = all_keys(alloc, charts, places)?;
    let ids = all_ids(alloc, charts, places)?;
    meet(alloc, &forest, &keys, &ids, fabric)
}

/// The forest of the meeting: its roots are the vertices of each rank, and its leaves the candidates.
fn meeting_forest<C: RankCharts>(
    alloc: Global,
    charts: &C,
    places: &[Vec<u32>],
) -> Result<Forest, NoMemory>
    requires right { AreRankCharts (C.charts charts.now) }
    requires places { lists_of places.now ≡ map (candidates (C.charts charts.now)) (below (length (C.charts charts.now))) }
    ensures { IfOk result (λ f. f ≡ meeting_forest (C.charts charts.now)) }
{
    let roots = vertex_counts(alloc, charts)?;
    let mut leaves = Vec::with_capacity(alloc, charts.ranks() as usize)?;
    for rank in 0..charts.ranks() {
        let own = &places[rank as usize];
        leaves.push(meeting_leaves(alloc, charts, rank, own)?)?;
    }
    made_of(alloc, roots, leaves)
}

/// The keys of all candidates.
fn all_keys<C: RankCharts>(
    alloc: Global,
    charts: &C,
    places: &[Vec<u32>],
) -> Result<Vec<Vec<[u64; 2]>>, NoMemory>
    requires right { AreRankCharts (C.charts charts.now) }
    requires places { lists_of places.now ≡ map (candidates (C.charts charts.now)) (below (length (C.charts charts.now))) }
    ensures { IfOk result (λ keys. lists_of keys.items ≡ all_keys (C.charts charts.now)) }
{
    let mut keys = Vec::with_capacity(alloc, charts.ranks() as usize)?;
    for rank in 0..charts.ranks() {
        let own = &places[rank as usize];
        keys.push(meeting_keys(alloc, charts, rank, own)?)?;
    }
    Ok(keys)
}

/// The ids of all candidates.
fn all_ids<C: RankCharts>(
    alloc: Global,
    charts: &C,
    places: &[Vec<u32>],
) -> Result<Vec<Vec<u64>>, NoMemory>
    requires right { AreRankCharts (C.charts charts.now) }
    requires places { lists_of places.now ≡ map (candidates (C.charts charts.now)) (below (length (C.charts charts.now))) }
    ensures { IfOk result (λ ids. lists_of ids.items ≡ all_ids (C.charts charts.now)) }
{
    let mut ids = Vec::with_capacity(alloc, charts.ranks() as usize)?;
    for rank in 0..charts.ranks() {
        let own = &places[rank as usize];
        ids.push(meeting_ids(alloc, charts, rank, own)?)?;
    }
    Ok(ids)
}

/// The forest that the ranks join from what their candidates met.
fn joined_forest<C: RankCharts>(
    alloc: Global,
    charts: &C,
    places: &[Vec<u32>],
    met: &[Vec<u64>],
) -> Result<Forest, NoMemory>
    requires right { AreRankCharts (C.charts charts.now) }
    requires places { lists_of places.now ≡ map (candidates (C.charts charts.now)) (below (length (C.charts charts.now))) }
    requires shape { map length (lists_of met.now) ≡ map length (lists_of places.now) }
    ensures { IfOk result (λ f. f ≡ joined_forest (C.charts charts.now) (lists_of met.now)) }
{
    let roots = point_counts(alloc, charts)?;
    let mut leaves = Vec::with_capacity(alloc, charts.ranks() as usize)?;
    for rank in 0..charts.ranks() {
        let own = &places[rank as usize];
        let own_met = &met[rank as usize];
        leaves.push(joined_leaves(alloc, charts, rank, own, own_met)?)?;
    }
    made_of(alloc, roots, leaves)
}

/// How many points each rank has.
fn point_counts<C: RankCharts>(alloc: Global, charts: &C) -> Result<Vec<u32>, NoMemory>
    requires { AreRankCharts (C.charts charts.now) }
    ensures { IfOk result (λ counts. counts.items ≡ map point_count (C.charts charts.now)) }
{
    let mut counts = Vec::with_capacity(alloc, charts.ranks() as usize)?;
    for rank in 0..charts.ranks() {
        let vertices = charts.vertices(rank).len() as u32;
        let sets = charts.sets(rank).len() as u32;
        counts.push(charts.cells(rank) + vertices + sets)?;
    }
    Ok(counts)
}
