//! Polytopes of element types.

ghost use Rattle.std.specs.Prelude.{◌≡◌, unwrap_or};
ghost use Rattle.mesh_defs.specs.declared.Poly.TheVariants.{Vertex};
ghost use Rattle.mesh_defs.specs.Tables.{dim_of};
ghost use Rattle.plex_base.specs.Dim.{dim_number};
ghost use Rattle.input_defs.specs.Sections.{poly_of_type as poly_of_number};

use mesh_defs::Poly;
use plex_base::Dim;

/// The polytope of the elements of a type, by the Gmsh manual; a vertex where it is no type that is
/// read.
pub fn poly_of_type(kind: u32) -> Poly
    ensures { result ≡ unwrap_or (poly_of_number kind) Vertex }
{
    match kind {
        1 => Poly::Segment,
        2 => Poly::Triangle,
        3 => Poly::Quad,
        4 => Poly::Tet,
        5 => Poly::Hex,
        _ => Poly::Vertex,
    }
}

/// The dimension of a polytope.
fn dim_of(poly: Poly) -> Dim
    ensures { dim_number result ≡ dim_of poly }
{
    match poly {
        Poly::Vertex => Dim::Zero,
        Poly::Segment => Dim::One,
        Poly::Triangle | Poly::Quad => Dim::Two,
        Poly::Tet | Poly::Hex => Dim::Three,
    }
}

/// The dimension of the elements of a type.
pub fn dim_of_type(kind: u32) -> Dim
    ensures { dim_number result ≡ dim_of (unwrap_or (poly_of_number kind) Vertex) }
{
    dim_of(poly_of_type(kind))
}
