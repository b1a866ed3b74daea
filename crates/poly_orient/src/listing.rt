//! The vertices of a polytope listed under an orientation.

ghost use Rattle.std.specs.Prelude.{◌≡◌, ◌≢◌, ◌↔◌, ◌≤ℤ◌, ℤ, length, pos};
ghost use Rattle.mesh_defs.specs.Tables.{corner_count};
ghost use Rattle.mesh_defs.specs.Orientation.{act};
ghost use Rattle.poly_orient.specs.Group.{IsOrientation, Differ};

use crate::corners::corner;
use crate::symmetry::symmetry_of;
use poly_tables::{Poly, vertex_count};

/// The least and the greatest orientation of a polytope, which has all between them. Those from 0
/// on keep its sense, and those below 0 turn it over. After the arrangements of a polytope in DMPlex.
pub fn orientations(p: Poly) -> (i8, i8)
    ensures { (o : ℤ) → IsOrientation p o ↔ ((result.0 ≤ℤ o) × (o ≤ℤ result.1)) }
{
    match p {
        Poly::Vertex => (0, 0),
        Poly::Segment => (-1, 0),
        Poly::Triangle => (-3, 2),
        Poly::Quad => (-4, 3),
        Poly::Tet => (-12, 11),
        Poly::Hex => (-24, 23),
    }
}

/// Lists the vertices `a` of a polytope, one for each corner, under its orientation `o`, into `to`,
/// which is as long.
pub fn act(p: Poly, o: i8, a: &[u32], to: &mut [u32])
    requires orientation { IsOrientation p o }
    requires from_corners { length a.now ≡ corner_count p }
    requires to_corners { length to.old ≡ corner_count p }

    ensures listed { to.new ≡ act p o a.now }
    ensures same { o ≡ pos 0 → to.new ≡ a.now }
    ensures apart { (other : ℤ) → IsOrientation p other → other ≢ o → Differ a.now → act p other a.now ≢ to.new }
{
    let symmetry = symmetry_of(o);
    for k in 0..vertex_count(p) {
        to[k] = a[corner(p, symmetry, k)];
    }
}
