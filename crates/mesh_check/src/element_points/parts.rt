//! The parts of a cell by its table: its vertices, its edges and its faces.

ghost use Rattle.std.specs.Prelude.{◌≡◌, ◌∷◌, [], ◌<◌, length, slice_index};
ghost use Rattle.plain_lists.specs.Lists.{picked};
ghost use Rattle.mesh_defs.specs.declared.Poly.TheVariants.{Tet, Hex};
ghost use Rattle.mesh_defs.specs.Tables.{corner_count, dim_of, facets_of, edges_of, facet_at, edge_at};
ghost use Rattle.input_laws.specs.place_laws.Places.{IsPlace};
ghost use Rattle.mesh_check.specs.element_points.Parts.{part, vertex_parts, edge_parts, face_parts};
ghost use Rattle.mesh_check.specs.element_points.Flags.{AreSet, has_dim};
ghost use Rattle.mesh_check.specs.element_points.Marks.{AreMarks};

use crate::element_places::ElementPlaces;
use crate::element_points::flags::set_flag;
use plex_base::Dim;
use poly_tables::{Poly, edge_corner, edge_count, facet_corner, facet_count};

/// Flags the elements on the vertices of a cell, where the file has points.
pub(crate) fn set_vertices(
    found: &mut [bool],
    places: &ElementPlaces<'_>,
    lower: &[bool],
    has_points: bool,
    nodes: &[u32],
)
    requires each { length found.old ≡ length places.now.elements }
    requires marks { AreMarks places.now lower.now }
    requires points { has_points ≡ has_dim places.now.elements 0 }
    requires place { IsPlace nodes.now }
    ensures { AreSet places.now.elements (vertex_parts nodes.now) found.old found.new }
{
    if !has_points {
        return;
    }
    for node in nodes {
        set_flag(found, places, lower, Dim::Zero, &[*node]);
    }
}

/// The nodes of an edge of a cell.
fn edge(poly: Poly, nodes: &[u32], e: usize) -> [u32; 2]
    requires corners { length nodes.now ≡ corner_count poly }
    requires edge { e < length (edges_of poly) }
    ensures { result ≡ picked nodes.now (edge_at poly e) }
{
    [
        nodes[edge_corner(poly, e, 0)],
        nodes[edge_corner(poly, e, 1)],
    ]
}

/// Flags the elements on the edges of a cell, where the file has lines.
pub(crate) fn set_edges(
    found: &mut [bool],
    places: &ElementPlaces<'_>,
    lower: &[bool],
    has_lines: bool,
    poly: Poly,
    nodes: &[u32],
)
    requires each { length found.old ≡ length places.now.elements }
    requires marks { AreMarks places.now lower.now }
    requires lines { has_lines ≡ has_dim places.now.elements 1 }
    requires place { IsPlace nodes.now }
    requires corners { length nodes.now ≡ corner_count poly }
    ensures { AreSet places.now.elements (edge_parts poly nodes.now) found.old found.new }
{
    if !has_lines {
        return;
    }
    for e in 0..edge_count(poly) {
        set_flag(found, places, lower, Dim::One, &edge(poly, nodes, e));
    }
}

/// A node of a face of a cell.
fn face_node(poly: Poly, nodes: &[u32], f: usize, j: usize) -> u32
    requires corners { length nodes.now ≡ corner_count poly }
    requires face { f < length (facets_of poly) }
    requires place { j < length (facet_at poly f).corners }
    ensures { result ≡ slice_index (picked nodes.now (facet_at poly f).corners) j }
{
    nodes[facet_corner(poly, f, j)]
}

/// The nodes of a face of a tetrahedron.
fn tet_face(nodes: &[u32], f: usize) -> [u32; 3]
    requires corners { length nodes.now ≡ 4 }
    requires face { f < 4 }
    ensures { result ≡ picked nodes.now (facet_at Tet f).corners }
{
    [
        face_node(Poly::Tet, nodes, f, 0),
        face_node(Poly::Tet, nodes, f, 1),
        face_node(Poly::Tet, nodes, f, 2),
    ]
}

/// The nodes of a face of a hexahedron.
fn hex_face(nodes: &[u32], f: usize) -> [u32; 4]
    requires corners { length nodes.now ≡ 8 }
    requires face { f < 6 }
    ensures { result ≡ picked nodes.now (facet_at Hex f).corners }
{
    [
        face_node(Poly::Hex, nodes, f, 0),
        face_node(Poly::Hex, nodes, f, 1),
        face_node(Poly::Hex, nodes, f, 2),
        face_node(Poly::Hex, nodes, f, 3),
    ]
}

/// Flags the elements on the faces of a tetrahedron.
fn set_tet_faces(found: &mut [bool], places: &ElementPlaces<'_>, lower: &[bool], nodes: &[u32])
    requires each { length found.old ≡ length places.now.elements }
    requires marks { AreMarks places.now lower.now }
    requires place { IsPlace nodes.now }
    requires corners { length nodes.now ≡ 4 }
    ensures { AreSet places.now.elements (face_parts Tet nodes.now) found.old found.new }
{
    for f in 0..facet_count(Poly::Tet) {
        set_flag(found, places, lower, Dim::Two, &tet_face(nodes, f));
    }
}

/// Flags the elements on the faces of a hexahedron.
fn set_hex_faces(found: &mut [bool], places: &ElementPlaces<'_>, lower: &[bool], nodes: &[u32])
    requires each { length found.old ≡ length places.now.elements }
    requires marks { AreMarks places.now lower.now }
    requires place { IsPlace nodes.now }
    requires corners { length nodes.now ≡ 8 }
    ensures { AreSet places.now.elements (face_parts Hex nodes.now) found.old found.new }
{
    for f in 0..facet_count(Poly::Hex) {
        set_flag(found, places, lower, Dim::Two, &hex_face(nodes, f));
    }
}

/// Flags the elements on the faces of a solid, where the file has elements of dimension 2. Another
/// cell has no faces beside itself.
pub(crate) fn set_faces(
    found: &mut [bool],
    places: &ElementPlaces<'_>,
    lower: &[bool],
    has_faces: bool,
    poly: Poly,
    nodes: &[u32],
)
    requires each { length found.old ≡ length places.now.elements }
    requires marks { AreMarks places.now lower.now }
    requires faces { has_faces ≡ has_dim places.now.elements 2 }
    requires place { IsPlace nodes.now }
    requires corners { length nodes.now ≡ corner_count poly }
    ensures { AreSet places.now.elements (face_parts poly nodes.now) found.old found.new }
{
    if !has_faces {
        return;
    }
    match poly {
        Poly::Tet => set_tet_faces(found, places, lower, nodes),
        Poly::Hex => set_hex_faces(found, places, lower, nodes),
        _ => {}
    }
}
