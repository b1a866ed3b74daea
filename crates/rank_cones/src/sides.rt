//! The entries of the cones of polygons and of edges: sides and ends.

ghost use Rattle.std.specs.Prelude.{◌≡◌, ◌≢◌, ◌+◌, ◌<◌, ◌==◌, ◌^◌, true, length, slice_index, pos};
ghost use Rattle.std.specs.List.{list_any, position_or_len, AllByRecursion};
ghost use Rattle.plain_lists.specs.Lists.{picked};
ghost use Rattle.mesh_defs.specs.declared.Poly.TheVariants.{Segment};
ghost use Rattle.mesh_defs.specs.Tables.{corner_count, edges_of, edge_at, facets_of};
ghost use Rattle.mesh_defs.specs.Points.{same_point, point_on, shows, cell_edges};
ghost use Rattle.mesh_defs.specs.Diagram.{place_in};
ghost use Rattle.mesh_defs.specs.Sights.{IsEdgeSight};
ghost use Rattle.rank_chart_laws.specs.meeting_laws.Sets.{Rising};
ghost use Rattle.rank_laws.specs.diagram_laws.Strata.{entry_from};
ghost use Rattle.local_points.specs.Cells.{cell_at};
ghost use Rattle.local_points.specs.Points.{local_points};
ghost use Rattle.rank_chart_laws.specs.rank_diagram_laws.Parts.{HasFacets};
ghost use Rattle.rank_cones.specs.Placed.{ArePlaced, IsOn, sight_at};
ghost use Rattle.rank_cones.specs.Seen.{HasSides};

use crate::held_points::HeldPoints;
use local_points::{CellList, LocalPoints};
use mesh_defs::ConeEntry;
use poly_tables::{edge_corner, edge_count};

/// The entry of edge `k`, seen between these ends, where the edges are numbered from `base`.
fn edge_entry(base: u32, held: &HeldPoints, k: u32, ends: [u32; 2]) -> ConeEntry
    requires place { k ≡ position_or_len (shows (point_on Segment ends)) held.now.edges }
    requires shown { list_any (shows (point_on Segment ends)) held.now.edges ≡ true }
    requires room { base + length held.now.edges < 2 ^ 32 }
    requires apart { slice_index ends 0 ≢ slice_index ends 1 }
    requires own_apart { AllByRecursion (IsEdgeSight (2 ^ 32)) held.now.edges }
    ensures { result ≡ entry_from base held.now.edges Segment ends }
{
    let (_, own) = held.edge(k);
    let o = if own[0] == ends[0] { 0 } else { -1 };
    ConeEntry { point: base + k, o }
}

/// The entry of edge `e` of cell `i`, a polygon, where the edges are numbered from `base`.
pub(crate) fn cell_side<C: CellList>(
    base: u32,
    cells: &C,
    local: &LocalPoints,
    held: &HeldPoints,
    i: usize,
    e: usize,
) -> ConeEntry
    requires local { local.now ≡ local_points (C.cells cells.now) }
    requires placed { ArePlaced local.now held.now }
    requires cell { i < length (C.cells cells.now) }
    requires flat { IsOn 2 held.now.edges (cell_at (C.cells cells.now) i).1 }
    requires edge { e < length (edges_of (cell_at (C.cells cells.now) i).1.poly) }
    requires room { base + length held.now.edges < 2 ^ 32 }
    ensures { result ≡ entry_from base held.now.edges Segment (picked (cell_at (C.cells cells.now) i).1.vertices (edge_at (cell_at (C.cells cells.now) i).1.poly e)) }
{
    let poly = cells.poly(i);
    let corners = cells.corners(i);
    let from = corners[edge_corner(poly, e, 0)];
    let to = corners[edge_corner(poly, e, 1)];
    edge_entry(base, held, held.edge_move(local.edge_of(i, e)), [from, to])
}

/// The entry of side `j` of face `k`, where cell `i` has the face and the edges are numbered from `base`.
pub(crate) fn face_side<C: CellList>(
    base: u32,
    cells: &C,
    local: &LocalPoints,
    held: &HeldPoints,
    i: usize,
    k: u32,
    j: usize,
) -> ConeEntry
    requires local { local.now ≡ local_points (C.cells cells.now) }
    requires placed { ArePlaced local.now held.now }
    requires cell { i < length (C.cells cells.now) }
    requires corners { length (cell_at (C.cells cells.now) i).1.vertices ≡ corner_count (cell_at (C.cells cells.now) i).1.poly }
    requires face { k < length held.now.faces }
    requires seen { HasSides (cell_at (C.cells cells.now) i) (sight_at held.now.faces k) }
    requires sides { HasFacets held.now.edges (facets_of (sight_at held.now.faces k).poly) (sight_at held.now.faces k).arrangement }
    requires side { j < length (edges_of (sight_at held.now.faces k).poly) }
    requires room { base + length held.now.edges < 2 ^ 32 }
    ensures { result ≡ entry_from base held.now.edges Segment (picked (sight_at held.now.faces k).arrangement (edge_at (sight_at held.now.faces k).poly j)) }
{
    let (_, face, corners) = held.face(k);
    let from = corners[edge_corner(face, j, 0)];
    let to = corners[edge_corner(face, j, 1)];
    let own = edge_between(cells, local, i, [from, to]);
    edge_entry(base, held, held.edge_move(own), [from, to])
}

/// The rank's own edge between these ends, which is an edge of cell `i`.
fn edge_between<C: CellList>(cells: &C, local: &LocalPoints, i: usize, ends: [u32; 2]) -> u32
    requires local { local.now ≡ local_points (C.cells cells.now) }
    requires cell { i < length (C.cells cells.now) }
    requires corners { length (cell_at (C.cells cells.now) i).1.vertices ≡ corner_count (cell_at (C.cells cells.now) i).1.poly }
    requires there { list_any (shows (point_on Segment ends)) (cell_edges (cell_at (C.cells cells.now) i).0 (cell_at (C.cells cells.now) i).1) ≡ true }
    ensures { result ≡ place_in local.now.edges (point_on Segment ends) }
{
    let poly = cells.poly(i);
    let corners = cells.corners(i);
    for e in 0..edge_count(poly) {
        let from = corners[edge_corner(poly, e, 0)];
        let to = corners[edge_corner(poly, e, 1)];
        if are_between(ends, [from, to]) {
            return local.edge_of(i, e);
        }
    }
    unreachable!()
}

/// Whether two edges have the same ends, in one order or the other.
fn are_between(ends: [u32; 2], others: [u32; 2]) -> bool
    ensures { result ≡ same_point (point_on Segment ends) (point_on Segment others) }
{
    let [from, to] = others;
    ends == [from, to] || ends == [to, from]
}

/// The place of a vertex among rising ones.
fn place_of(vertices: &[u32], vertex: u32) -> usize
    requires rising { Rising vertices.now }
    requires there { list_any (λ w. w == vertex) vertices.now ≡ true }
    ensures place { result ≡ position_or_len (λ w. w == vertex) vertices.now }
    ensures within { result < length vertices.now }
{
    match vertices.binary_search(&vertex) {
        Ok(place) => place,
        Err(place) => place,
    }
}

/// The entry of a vertex among rising ones, which stand behind the cells. A vertex is seen one way only.
pub(crate) fn end_entry(cells: u32, vertices: &[u32], vertex: u32) -> ConeEntry
    requires rising { Rising vertices.now }
    requires there { list_any (λ w. w == vertex) vertices.now ≡ true }
    requires few { cells + length vertices.now < 2 ^ 32 }
    ensures { result ≡ record { point = cells + position_or_len (λ w. w == vertex) vertices.now; o = pos 0 } }
{
    ConeEntry {
        point: cells + place_of(vertices, vertex) as u32,
        o: 0,
    }
}
