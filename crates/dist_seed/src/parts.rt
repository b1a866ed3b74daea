//! What each rank is given.
ghost use Rattle.std.specs.Prelude.{◌≡◌, ◌<◌, ◌≤◌, [], length, map, get_or, IfOk};
ghost use Rattle.std.specs.List.{AllByRecursion};
ghost use Rattle.plain_lists.specs.Lists.{below};
ghost use Rattle.rank_defs.specs.Spread.{coordinates_of};
ghost use Rattle.dist_seed.specs.rank_cells.Own.{held_of};
ghost use Rattle.dist_seed.specs.section_rows.Last.{AreTablesOf};
ghost use Rattle.headline_laws.specs.seed_laws.Given.{owners_of};
ghost use Rattle.dist_seed.specs.Parts.{part_given};

use crate::rank_cells::{RankCells, rank_cells};
use crate::rank_marks::rank_marks;
use crate::section_rows::{RowTable, rows_of};
use crate::vertex_owners::owners_at;
use dist_state::scatter_state::{PartLists, RankPart};
use plex_base::NoMemory;
use plex_mesh::Mesh;
use std::alloc::Global;
use std::thread::Threads;

/// What each of so many ranks holds, where `ranks` has the rank of each cell.
pub(crate) fn held_cells(
    alloc: Global,
    mesh: &Mesh,
    ranks: &[u32],
    count: u32,
) -> Result<Vec<RankCells>, NoMemory>
    requires { length ranks.now ≡ length mesh.now.cells }
    ensures { IfOk result (λ held. held.items ≡ map (held_of mesh.now ranks.now) (below count)) }
{
    let mut held = Vec::with_capacity(alloc, count as usize)?;
    for rank in 0..count {
        held.push(rank_cells(alloc, mesh, ranks, rank)?)?;
    }
    Ok(held)
}

/// The coordinates of these vertices.
fn coordinates_of(alloc: Global, mesh: &Mesh, vertices: &[u32]) -> Result<Vec<[i64; 3]>, NoMemory>
    requires { AllByRecursion (λ v. v < length mesh.now.at) vertices.now }
    ensures { IfOk result (λ at. at.items ≡ coordinates_of mesh.now vertices.now) }
{
    let mut at = Vec::with_capacity(alloc, vertices.len())?;
    for v in vertices {
        at.push(mesh.at(*v))?;
    }
    Ok(at)
}

/// What belongs to the mesh, by which ranks are given their parts: the rank of each cell, the owner of each
/// vertex, and the last rows of data.
#[derive(Drop)]
pub(crate) struct Sources<'a> {
    pub mesh: &'a Mesh,
    pub ranks: &'a [u32],
    pub owners: &'a [u32],
    pub tables: &'a [RowTable],
}

/// What rank `rank` is given that holds these cells.
fn part_of<R: Threads + Sync>(
    rt: &R,
    alloc: Global,
    from: &Sources<'_>,
    rank: u32,
    own: RankCells,
) -> Result<RankPart, NoMemory>
    requires held { own ≡ held_of from.now.mesh.now from.now.ranks.now rank }
    requires count { length from.now.ranks.now ≡ length from.now.mesh.now.cells }
    requires owners { from.now.owners.now ≡ owners_of from.now.mesh.now from.now.ranks.now (below (length from.now.mesh.now.at)) }
    requires tables { AreTablesOf from.now.mesh.now from.now.mesh.now.fields from.now.tables.now }
    ensures { IfOk result (λ part. part ≡ part_given from.now.mesh.now from.now.ranks.now rank) }
{
    // It is a right mesh: the proof takes this from the call.
    let _dim = from.mesh.dim();
    let marks = rank_marks(rt, alloc, from.mesh, &own)?;
    let lists = own.into_lists();
    let owners = owners_at(alloc, from.owners, &lists.vertices)?;
    let at = coordinates_of(alloc, from.mesh, &lists.vertices)?;
    let rows = rows_of(alloc, from.mesh, from.tables, &lists.cells, &lists.vertices)?;
    Ok(RankPart::of(PartLists {
        cells: lists.cells,
        polys: lists.polys,
        corners: lists.corners,
        vertices: lists.vertices,
        owners,
        at,
        marks: marks.heads,
        mark_vertices: marks.vertices,
        rows,
    }))
}

/// What each rank is given that holds its cells.
pub(crate) fn parts_of<R: Threads + Sync>(
    rt: &R,
    alloc: Global,
    from: &Sources<'_>,
    held: Vec<RankCells>,
) -> Result<Vec<RankPart>, NoMemory>
    requires few { length held.items ≤ 64 }
    requires held { held.items ≡ map (held_of from.now.mesh.now from.now.ranks.now) (below (length held.items)) }
    requires count { length from.now.ranks.now ≡ length from.now.mesh.now.cells }
    requires owners { from.now.owners.now ≡ owners_of from.now.mesh.now from.now.ranks.now (below (length from.now.mesh.now.at)) }
    requires tables { AreTablesOf from.now.mesh.now from.now.mesh.now.fields from.now.tables.now }
    ensures { IfOk result (λ parts. parts.items ≡ map (part_given from.now.mesh.now from.now.ranks.now) (below (length held.items))) }
{
    let mut parts = Vec::with_capacity(alloc, held.len())?;
    for own in held {
        let rank = parts.len() as u32;
        parts.push(part_of(rt, alloc, from, rank, own)?)?;
    }
    Ok(parts)
}
