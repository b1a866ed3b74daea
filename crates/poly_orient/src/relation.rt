//! The orientation that leads from one list of vertices to another.

ghost use Rattle.std.specs.Prelude.{◌≡◌, ◌≢◌, ◌<◌, ◌==◌, ◌↔◌, ℤ, IsTrue, IfSome, IfNone, length};
ghost use Rattle.std.specs.List.{position};
ghost use Rattle.plain_lists.specs.Lists.{picked};
ghost use Rattle.mesh_defs.specs.Tables.{corner_count};
ghost use Rattle.mesh_defs.specs.Orientation.{act, relative};
ghost use Rattle.poly_orient.specs.Group.{IsOrientation, Differ};
ghost use Rattle.poly_orient.specs.Symmetries.{corners_listed, IsSymmetry, settle, telling_place};

use crate::corners::{corner, place, second};
use crate::symmetry::{Symmetry, orientation_of};
use poly_tables::{Poly, vertex_count};

/// The place whose corner tells the two senses apart, once the first and the second corner are known.
fn telling_place(p: Poly) -> usize
    ensures place { result ≡ telling_place p }
    ensures in_range { result < corner_count p }
{
    match p {
        Poly::Vertex => 0,
        Poly::Segment | Poly::Triangle | Poly::Quad => 1,
        Poly::Tet | Poly::Hex => 2,
    }
}

/// The symmetry under which these corners stand first, second and at the telling place, if there is
/// one.
fn settle(p: Poly, first: usize, second: usize, third: usize) -> Symmetry
    requires first { first < corner_count p }
    requires second { second < corner_count p }
    requires third { third < corner_count p }
    ensures symmetry { result ≡ settle p first second third }
    ensures has { IsSymmetry p result }
{
    let place = place(p, first, second);
    let symmetry = Symmetry::Rotation(place);
    if corner(p, symmetry, telling_place(p)) == third {
        symmetry
    } else {
        Symmetry::Reflection(place)
    }
}

/// The place of a vertex in a list.
fn place_of(vertices: &[u32], vertex: u32) -> Option<usize>
    ensures { result ≡ position (λ v. v == vertex) vertices.now }
{
    vertices.iter().position(|v| *v == vertex)
}

/// Whether the symmetry leads from one list to the other.
fn leads(p: Poly, symmetry: Symmetry, from: &[u32], to: &[u32]) -> bool
    requires symmetry { IsSymmetry p symmetry }
    requires from_corners { length from.now ≡ corner_count p }
    requires to_corners { length to.now ≡ corner_count p }
    ensures { IsTrue result ↔ (picked from.now (corners_listed p symmetry) ≡ to.now) }
{
    for k in 0..vertex_count(p) {
        if from[corner(p, symmetry, k)] != to[k] {
            return false;
        }
    }
    true
}

/// The orientation under which the vertices `from` of a polytope become the list `to`, if there is
/// one. Both have one entry for each corner, and those of `from` differ. After
/// `DMPolytopeGetVertexOrientation`.
///
/// The places in `from` of at most three vertices of `to` settle which one it can be.
pub fn relative(p: Poly, from: &[u32], to: &[u32]) -> Option<i8>
    requires from_corners { length from.now ≡ corner_count p }
    requires to_corners { length to.now ≡ corner_count p }
    requires differ { Differ from.now }

    ensures value { result ≡ relative p from.now to.now }
    ensures some { IfSome result (λ o. IsOrientation p o × (act p o from.now ≡ to.now)) }
    ensures none { IfNone result ((o : ℤ) → IsOrientation p o → act p o from.now ≢ to.now) }
{
    let first = place_of(from, to[0])?;
    let second = place_of(from, to[second(p)])?;
    let third = place_of(from, to[telling_place(p)])?;
    let symmetry = settle(p, first, second, third);
    if leads(p, symmetry, from, to) {
        Some(orientation_of(symmetry))
    } else {
        None
    }
}
