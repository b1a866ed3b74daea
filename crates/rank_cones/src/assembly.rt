//! The points of a rank, stratum after stratum.

ghost use Rattle.std.specs.Prelude.{◌≡◌, ◌+◌, ◌<◌, ◌≤◌, [], ◌++◌, map, length, None, OnOk, IfErr};
ghost use Rattle.rank_laws.specs.diagram_laws.Strata.{face_sights, first_twist, bare_cover};
ghost use Rattle.plain_lists.specs.Lists.{below};
ghost use Rattle.rank_chart_laws.specs.rank_diagram_laws.Parts.{AreParts, cell_part, face_part, edge_part};
ghost use Rattle.rank_cones.specs.Placed.{IsFirstTwist};
ghost use Rattle.rank_cones.specs.Assembly.{rank_parts, AreWhole, IsFor};

use crate::cones::{cell_cone, face_cone};
use crate::held_points::HeldPoints;
use crate::seen::seeing_cells;
use crate::sides::end_entry;
use crate::stop::Stop;
use local_points::{CellList, LocalPoints};
use mesh_defs::{ConeEntry, Poly};
use plex_base::NoMemory;
use plex_chart::PlexBuilder;
use std::alloc::Global;

/// The cells with their cones, which `cone` holds one after another.
pub(crate) fn push_cells<C: CellList>(
    plex: &mut PlexBuilder,
    cone: &mut Vec<ConeEntry>,
    cells: &C,
    vertices: &[u32],
    local: &LocalPoints,
    held: &HeldPoints,
) -> Result<(), Stop>
    requires whole { AreWhole (rank_parts plex.old.dim (C.cells cells.now) vertices.now held.now) local.now held.now }
    requires plex { IsFor (rank_parts plex.old.dim (C.cells cells.now) vertices.now held.now) plex.old }
    requires start { plex.old.points ≡ [] }
    ensures plex { OnOk result (plex.new ≡ record plex.old { points = map (cell_part (rank_parts plex.old.dim (C.cells cells.now) vertices.now held.now)) (C.cells cells.now) }) }
    ensures untwisted { OnOk result (first_twist held.now.faces (face_sights (C.cells cells.now)) ≡ None) }
    ensures stop { IfErr result (λ stop. IsFirstTwist held.now.faces (face_sights (C.cells cells.now)) stop) }
{
    let base = cells.len() as u32 + vertices.len() as u32;
    for i in 0..cells.len() {
        cell_cone(cone, base, cells, local, held, i)?;
        plex.push(cells.poly(i), cone)?;
    }
    Ok(())
}

/// So many vertices.
pub(crate) fn push_vertices(plex: &mut PlexBuilder, vertices: u32) -> Result<(), NoMemory>
    requires dim { 2 ≤ plex.old.dim }
    requires start { length plex.old.points ≡ plex.old.cells }
    requires room { vertices ≤ plex.old.vertices }
    ensures { OnOk result (plex.new ≡ record plex.old { points = plex.old.points ++ map (λ v. bare_cover) (below vertices) }) }
{
    for _vertex in 0..vertices {
        plex.push(Poly::Vertex, &[])?;
    }
    Ok(())
}

/// The faces with their cones, which `cone` holds one after another.
pub(crate) fn push_faces<C: CellList>(
    alloc: Global,
    plex: &mut PlexBuilder,
    cone: &mut Vec<ConeEntry>,
    cells: &C,
    vertices: &[u32],
    local: &LocalPoints,
    held: &HeldPoints,
) -> Result<(), NoMemory>
    requires whole { AreWhole (rank_parts plex.old.dim (C.cells cells.now) vertices.now held.now) local.now held.now }
    requires untwisted { first_twist held.now.faces (face_sights (C.cells cells.now)) ≡ None }
    requires plex { IsFor (rank_parts plex.old.dim (C.cells cells.now) vertices.now held.now) plex.old }
    requires start { length plex.old.points ≡ length (C.cells cells.now) + length vertices.now }
    ensures { OnOk result (plex.new ≡ record plex.old { points = plex.old.points ++ map (face_part (rank_parts plex.old.dim (C.cells cells.now) vertices.now held.now)) held.now.faces }) }
{
    let base = cells.len() as u32 + vertices.len() as u32 + held.faces();
    let seeing = seeing_cells(alloc, cells, local, held)?;
    for k in 0..held.faces() {
        let i = seeing[k as usize] as usize;
        face_cone(cone, base, cells, local, held, i, k)?;
        plex.push(held.face(k).1, cone)?;
    }
    Ok(())
}

/// The edges with their ends.
pub(crate) fn push_edges<C: CellList>(
    plex: &mut PlexBuilder,
    cells: &C,
    vertices: &[u32],
    held: &HeldPoints,
) -> Result<(), NoMemory>
    requires parts { AreParts (rank_parts plex.old.dim (C.cells cells.now) vertices.now held.now) }
    requires plex { IsFor (rank_parts plex.old.dim (C.cells cells.now) vertices.now held.now) plex.old }
    requires start { length plex.old.points ≡ length (C.cells cells.now) + length vertices.now + length held.now.faces }
    ensures { OnOk result (plex.new ≡ record plex.old { points = plex.old.points ++ map (edge_part (rank_parts plex.old.dim (C.cells cells.now) vertices.now held.now)) held.now.edges }) }
{
    let count = cells.len() as u32;
    for k in 0..held.edges() {
        let (_, [from, to]) = held.edge(k);
        let cone = [
            end_entry(count, vertices, from),
            end_entry(count, vertices, to),
        ];
        plex.push(Poly::Segment, &cone)?;
    }
    Ok(())
}
