//! The places of a cell's points among those of its rank, where cells stand before vertices, faces and edges.

ghost use Rattle.std.specs.Prelude.{◌≡◌, ◌==◌, ◌+◌, ◌<◌, ◌≤◌, ◌^◌, ◌++◌, true, length, map, OnOk};
ghost use Rattle.std.specs.List.{list_any, AllByRecursion};
ghost use Rattle.local_points.specs.Points.{row_at};
ghost use Rattle.rank_chart_laws.specs.meeting_laws.Sets.{Rising};
ghost use Rattle.dist_state.specs.scatter_state.Parts.{cell_at};
ghost use Rattle.rank_laws.specs.cell_laws.Cells.{places_from};
ghost use Rattle.interp_share.specs.part_weights.Places.{AreOfPart, cell_places, vertex_place};

use dist_state::scatter_state::RankPart;
use local_points::LocalPoints;
use plex_base::NoMemory;
use poly_tables::{dim, edge_count, facet_count};

/// The places of all points that cell `i` of a rank contains, into `places`: itself, its vertices, its
/// faces and its edges.
pub(crate) fn list_places(
    places: &mut Vec<u32>,
    part: &RankPart,
    local: &LocalPoints,
    i: usize,
) -> Result<(), NoMemory>
    requires points { AreOfPart part.now local.now }
    requires cell { i < length part.now.cells }
    ensures { OnOk result (places.new.items ≡ cell_places part.now i (cell_at part.now.cells i)) }
{
    let cells = part.cells().len() as u32;
    let faces = cells + part.vertices().len() as u32;
    let edges = faces + local.faces();
    places.clear();
    places.push(i as u32)?;
    push_vertices(places, cells, part.vertices(), part.corners(i))?;
    push_faces(places, faces, part, local, i)?;
    push_edges(places, edges, part, local, i)?;
    Ok(())
}

/// The place of a vertex among rising ones.
fn place_of(vertices: &[u32], vertex: u32) -> u32
    requires rising { Rising vertices.now }
    requires there { list_any (λ w. w == vertex) vertices.now ≡ true }
    requires few { length vertices.now < 2 ^ 32 }
    ensures place { result ≡ vertex_place vertices.now vertex }
    ensures within { result < length vertices.now }
{
    match vertices.binary_search(&vertex) {
        Ok(place) => place as u32,
        Err(place) => place as u32,
    }
}

/// The vertices at the corners of a cell, where those of the rank are numbered from `base`.
fn push_vertices(
    places: &mut Vec<u32>,
    base: u32,
    vertices: &[u32],
    corners: &[u32],
) -> Result<(), NoMemory>
    requires rising { Rising vertices.now }
    requires there { AllByRecursion (λ v. list_any (λ w. w == v) vertices.now ≡ true) corners.now }
    requires room { base + length vertices.now < 2 ^ 32 }
    ensures { OnOk result (places.new.items ≡ places.old.items ++ places_from base (map (vertex_place vertices.now) corners.now)) }
{
    for v in corners {
        places.push(base + place_of(vertices, *v))?;
    }
    Ok(())
}

/// How many faces a cell has: a polygon has none beside itself.
fn face_count_of(part: &RankPart, local: &LocalPoints, i: usize) -> usize
    requires points { AreOfPart part.now local.now }
    requires cell { i < length part.now.cells }
    ensures { result ≡ length (row_at local.now.face_places i) }
{
    let poly = part.poly(i);
    if dim(poly) == 3 { facet_count(poly) } else { 0 }
}

/// The faces of cell `i`, where those of the rank are numbered from `base`.
fn push_faces(
    places: &mut Vec<u32>,
    base: u32,
    part: &RankPart,
    local: &LocalPoints,
    i: usize,
) -> Result<(), NoMemory>
    requires points { AreOfPart part.now local.now }
    requires cell { i < length part.now.cells }
    requires room { base + length local.now.faces < 2 ^ 32 }
    ensures { OnOk result (places.new.items ≡ places.old.items ++ places_from base (row_at local.now.face_places i)) }
{
    for f in 0..face_count_of(part, local, i) {
        places.push(base + local.face_of(i, f))?;
    }
    Ok(())
}

/// How many edges a cell has.
fn edge_count_of(part: &RankPart, local: &LocalPoints, i: usize) -> usize
    requires points { AreOfPart part.now local.now }
    requires cell { i < length part.now.cells }
    ensures { result ≡ length (row_at local.now.edge_places i) }
{
    edge_count(part.poly(i))
}

/// The edges of cell `i`, where those of the rank are numbered from `base`.
fn push_edges(
    places: &mut Vec<u32>,
    base: u32,
    part: &RankPart,
    local: &LocalPoints,
    i: usize,
) -> Result<(), NoMemory>
    requires points { AreOfPart part.now local.now }
    requires cell { i < length part.now.cells }
    requires room { base + length local.now.edges < 2 ^ 32 }
    ensures { OnOk result (places.new.items ≡ places.old.items ++ places_from base (row_at local.now.edge_places i)) }
{
    for e in 0..edge_count_of(part, local, i) {
        places.push(base + local.edge_of(i, e))?;
    }
    Ok(())
}
