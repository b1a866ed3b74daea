//! The corner that stands at a place under an orientation, and the place of a list of corners.

ghost use Rattle.std.specs.Prelude.{◌≡◌, ◌<◌, slice_index};
ghost use Rattle.mesh_defs.specs.Tables.{corner_count};
ghost use Rattle.poly_orient.specs.Symmetries.{corners_listed, IsSymmetry, place, second};

use crate::symmetry::Symmetry;
use crate::tables::{
    HEX_NUMBERS, HEX_REFLECTIONS, HEX_ROTATIONS, QUAD_REFLECTIONS, QUAD_ROTATIONS, TET_NUMBERS,
    TET_REFLECTIONS, TET_ROTATIONS, TRIANGLE_REFLECTIONS, TRIANGLE_ROTATIONS,
};
use poly_tables::Poly;

/// The corner at place k.
#[tactic(auto, unfolding(mesh_defs::specs::Orientation::rotations, mesh_defs::specs::Orientation::reflections))]
pub fn corner(p: Poly, symmetry: Symmetry, k: usize) -> usize
    requires orientation { IsSymmetry p symmetry }
    requires place { k < corner_count p }
    ensures corner { result ≡ slice_index (corners_listed p symmetry) k }
    ensures in_range { result < corner_count p }
{
    match (p, symmetry) {
        (Poly::Vertex, _) => 0,
        (Poly::Segment, Symmetry::Rotation(_)) => k,
        (Poly::Segment, Symmetry::Reflection(_)) => 1 - k,
        (Poly::Triangle, Symmetry::Rotation(o)) => TRIANGLE_ROTATIONS[o][k] as usize,
        (Poly::Triangle, Symmetry::Reflection(s)) => TRIANGLE_REFLECTIONS[s][k] as usize,
        (Poly::Quad, Symmetry::Rotation(o)) => QUAD_ROTATIONS[o][k] as usize,
        (Poly::Quad, Symmetry::Reflection(s)) => QUAD_REFLECTIONS[s][k] as usize,
        (Poly::Tet, Symmetry::Rotation(o)) => TET_ROTATIONS[o][k] as usize,
        (Poly::Tet, Symmetry::Reflection(s)) => TET_REFLECTIONS[s][k] as usize,
        (Poly::Hex, Symmetry::Rotation(o)) => HEX_ROTATIONS[o][k] as usize,
        (Poly::Hex, Symmetry::Reflection(s)) => HEX_REFLECTIONS[s][k] as usize,
    }
}

/// The place of a list of corners among those of its sense, by its first and second corner.
pub fn place(p: Poly, first: usize, second: usize) -> usize
    requires first { first < corner_count p }
    requires second { second < corner_count p }
    ensures { result ≡ place p first second }
{
    match p {
        Poly::Vertex | Poly::Segment => 0,
        Poly::Triangle | Poly::Quad => first,
        Poly::Tet => TET_NUMBERS[first][second] as usize,
        Poly::Hex => HEX_NUMBERS[first][second] as usize,
    }
}

/// The place of the second corner, or of the only one.
pub fn second(p: Poly) -> usize
    ensures second { result ≡ second p }
    ensures in_range { result < corner_count p }
{
    match p {
        Poly::Vertex => 0,
        _ => 1,
    }
}
