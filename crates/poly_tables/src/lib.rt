//! Facets and edges of the polytopes, by table look-ups. No call takes memory.
//!
//! Corners, facets and edges are numbered from 0, as in the cones of the reference cells of DMPlex,
//! with this library's own numbering.
#![tactic(auto)]

ghost use Rattle.std.specs.Prelude.{◌≡◌, ◌<◌, length, slice_index};
ghost use Rattle.mesh_defs.specs.Tables.{dim_of, corner_count, facets_of, edges_of, facet_at, edge_at};

pub use mesh_defs::Poly;

const TRIANGLE_EDGES: [[u8; 2]; 3] = [[0, 1], [1, 2], [2, 0]];

const QUAD_EDGES: [[u8; 2]; 4] = [[0, 1], [1, 2], [2, 3], [3, 0]];

const TET_EDGES: [[u8; 2]; 6] = [[0, 1], [1, 2], [2, 0], [0, 3], [1, 3], [2, 3]];

const HEX_EDGES: [[u8; 2]; 12] = [
    [0, 1],
    [1, 2],
    [2, 3],
    [3, 0],
    [4, 5],
    [5, 6],
    [6, 7],
    [7, 4],
    [0, 4],
    [1, 5],
    [2, 6],
    [3, 7],
];

const TET_FACETS: [[u8; 3]; 4] = [[0, 2, 1], [0, 1, 3], [1, 2, 3], [0, 3, 2]];

const HEX_FACETS: [[u8; 4]; 6] = [
    [0, 3, 2, 1],
    [4, 5, 6, 7],
    [0, 1, 5, 4],
    [1, 2, 6, 5],
    [2, 3, 7, 6],
    [3, 0, 4, 7],
];

/// The dimension of a polytope, 0 to 3: `DMPolytopeTypeGetDim`.
pub fn dim(p: Poly) -> u32
    ensures { result ≡ dim_of p }
{
    match p {
        Poly::Vertex => 0,
        Poly::Segment => 1,
        Poly::Triangle | Poly::Quad => 2,
        Poly::Tet | Poly::Hex => 3,
    }
}

/// How many corners a polytope has: `DMPolytopeTypeGetNumVertices`.
pub fn vertex_count(p: Poly) -> usize
    ensures { result ≡ corner_count p }
{
    match p {
        Poly::Vertex => 1,
        Poly::Segment => 2,
        Poly::Triangle => 3,
        Poly::Quad | Poly::Tet => 4,
        Poly::Hex => 8,
    }
}

/// How many facets a polytope has: the ends of a segment, the edges of a polygon, the faces of a
/// solid. `DMPolytopeTypeGetConeSize`.
pub fn facet_count(p: Poly) -> usize
    ensures { result ≡ length (facets_of p) }
{
    match p {
        Poly::Vertex => 0,
        Poly::Segment => 2,
        Poly::Triangle => 3,
        Poly::Quad | Poly::Tet => 4,
        Poly::Hex => 6,
    }
}

/// How many edges a polygon or a solid has. A segment and a vertex have none in these tables.
pub fn edge_count(p: Poly) -> usize
    ensures { result ≡ length (edges_of p) }
{
    match p {
        Poly::Vertex | Poly::Segment => 0,
        Poly::Triangle => 3,
        Poly::Quad => 4,
        Poly::Tet => 6,
        Poly::Hex => 12,
    }
}

/// The polytope of facet `k`, which is below `facet_count(p)`.
pub fn facet_poly(p: Poly, k: usize) -> Poly
    requires { k < length (facets_of p) }
    ensures { result ≡ (facet_at p k).poly }
{
    match p {
        Poly::Vertex | Poly::Segment => Poly::Vertex,
        Poly::Triangle | Poly::Quad => Poly::Segment,
        Poly::Tet => Poly::Triangle,
        Poly::Hex => Poly::Quad,
    }
}

/// The corner of the polytope at place `j` of facet `k`. The facet is below `facet_count(p)`, the place
/// below the number of that facet's corners.
pub fn facet_corner(p: Poly, k: usize, j: usize) -> usize
    requires facet { k < length (facets_of p) }
    requires place { j < length (facet_at p k).corners }
    ensures { result ≡ slice_index (facet_at p k).corners j }
{
    match p {
        Poly::Vertex | Poly::Segment => k,
        Poly::Triangle => TRIANGLE_EDGES[k][j] as usize,
        Poly::Quad => QUAD_EDGES[k][j] as usize,
        Poly::Tet => TET_FACETS[k][j] as usize,
        Poly::Hex => HEX_FACETS[k][j] as usize,
    }
}

/// The corner of the polytope at place `j`, 0 or 1, of edge `e`, which is below `edge_count(p)`.
pub fn edge_corner(p: Poly, e: usize, j: usize) -> usize
    requires edge { e < length (edges_of p) }
    requires place { j < 2 }
    ensures { result ≡ slice_index (edge_at p e) j }
{
    match p {
        Poly::Vertex | Poly::Segment => unreachable!(),
        Poly::Triangle => TRIANGLE_EDGES[e][j] as usize,
        Poly::Quad => QUAD_EDGES[e][j] as usize,
        Poly::Tet => TET_EDGES[e][j] as usize,
        Poly::Hex => HEX_EDGES[e][j] as usize,
    }
}
