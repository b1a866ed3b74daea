//! What an orientation does to the facets of a polytope.

ghost use Rattle.std.specs.Prelude.{◌≡◌, ◌<◌, ℕ, List, length};
ghost use Rattle.plain_lists.specs.Lists.{picked};
ghost use Rattle.mesh_defs.specs.Tables.{corner_count, facets_of, facet_at};
ghost use Rattle.mesh_defs.specs.Orientation.{act};
ghost use Rattle.poly_orient.specs.Group.{IsOrientation, facet_under};
ghost use Rattle.poly_orient.specs.Symmetries.{IsSymmetry, facet_along, place_along, start_after, facet_corner_listed, facet_second, facet_from};

use crate::corners::corner;
use crate::symmetry::{Symmetry, orientation_of, symmetry_of};
use crate::tables::{HEX_FACETS_ALONG, HEX_PLACES_ALONG, TET_FACETS_ALONG, TET_PLACES_ALONG};
use poly_tables::{Poly, facet_corner};

/// The facet around which its own sense leads from corner `a` to corner `b`, by that of the edges of
/// a polygon and the table of a solid.
fn facet_along(p: Poly, a: usize, b: usize) -> usize
    requires first { a < corner_count p }
    requires second { b < corner_count p }
    ensures { result ≡ facet_along p a b }
{
    match p {
        Poly::Tet => TET_FACETS_ALONG[a][b] as usize,
        Poly::Hex => HEX_FACETS_ALONG[a][b] as usize,
        _ => a,
    }
}

/// The place of corner `a` in that facet.
fn place_along(p: Poly, a: usize, b: usize) -> usize
    requires first { a < corner_count p }
    requires second { b < corner_count p }
    ensures place { result ≡ place_along p a b }
    ensures in_range { result < 4 }
{
    match p {
        Poly::Tet => TET_PLACES_ALONG[a][b] as usize,
        Poly::Hex => HEX_PLACES_ALONG[a][b] as usize,
        _ => 0,
    }
}

/// The reflection of a facet that begins after this place.
fn start_after(p: Poly, place: usize) -> usize
    requires { place < 4 }
    ensures { result ≡ start_after p place }
{
    match p {
        Poly::Tet => (place + 1) % 3,
        Poly::Hex => (place + 1) % 4,
        _ => 0,
    }
}

/// The place of the second corner of a facet, or of the only one.
fn facet_second(p: Poly) -> usize
    ensures { result ≡ facet_second p }
{
    match p {
        Poly::Vertex | Poly::Segment => 0,
        _ => 1,
    }
}

/// The corner at place j of facet k, under a symmetry of the whole.
fn facet_corner_listed(p: Poly, symmetry: Symmetry, k: usize, j: usize) -> usize
    requires symmetry { IsSymmetry p symmetry }
    requires facet { k < length (facets_of p) }
    requires place { j < length (facet_at p k).corners }
    ensures corner { result ≡ facet_corner_listed p symmetry k j }
    ensures in_range { result < corner_count p }
{
    corner(p, symmetry, facet_corner(p, k, j))
}

/// The facet that stands where two of its corners do, one after the other, and its own symmetry.
#[tactic(auto, unfolding(crate::specs::Symmetries::facet_from))]
fn facet_from(p: Poly, symmetry: Symmetry, a: usize, b: usize) -> (usize, Symmetry)
    requires first { a < corner_count p }
    requires second { b < corner_count p }
    ensures { result ≡ facet_from p symmetry a b }
{
    match (p, symmetry) {
        (Poly::Vertex | Poly::Segment, _) => (a, Symmetry::Rotation(0)),
        (_, Symmetry::Rotation(_)) => (
            facet_along(p, a, b),
            Symmetry::Rotation(place_along(p, a, b)),
        ),
        (_, Symmetry::Reflection(_)) => {
            let start = start_after(p, place_along(p, b, a));
            (facet_along(p, b, a), Symmetry::Reflection(start))
        }
    }
}

/// Where a polytope is listed under its orientation `o`: which of its facets stands at the place of
/// facet `k`, and the orientation of that facet under which it becomes what stands there. After the
/// arrangements of cones in DMPlex. A vertex has no facets, and so no `k`.
pub fn cone_under(p: Poly, o: i8, k: usize) -> (usize, i8)
    requires orientation { IsOrientation p o }
    requires facet { k < length (facets_of p) }

    ensures value { result ≡ facet_under p o k }
    ensures facet { result.0 < length (facets_of p) }
    ensures facet_orientation { IsOrientation (facet_at p result.0).poly result.1 }
    ensures carries { (a : List ℕ) → picked (act p o a) (facet_at p k).corners ≡ act (facet_at p result.0).poly result.1 (picked a (facet_at p result.0).corners) }
{
    let symmetry = symmetry_of(o);
    let a = facet_corner_listed(p, symmetry, k, 0);
    let b = facet_corner_listed(p, symmetry, k, facet_second(p));
    let (facet, facet_symmetry) = facet_from(p, symmetry, a, b);
    (facet, orientation_of(facet_symmetry))
}
