ghost use Rattle.std.specs.Prelude.{◌≡◌, ◌*◌, ◌<◌, ◌≤◌, [], length, get_or, OnOk};
ghost use Rattle.std.specs.List.{AllByRecursion};
ghost use Rattle.plain_lists.specs.Lists.{picked};
ghost use Rattle.mesh_defs.specs.Tables.{dim_of};
ghost use Rattle.plex_base.specs.Dim.{dim_number};
ghost use Rattle.input_defs.specs.Generated.{cuts, layers, poly_of};

use input_defs::Kind;
use mesh_defs::Poly;
use plex_base::{Dim, NoMemory};

const TRI: [[u8; 3]; 2] = [[0, 1, 2], [0, 2, 3]];

const QUAD: [[u8; 4]; 1] = [[0, 1, 2, 3]];

const TET: [[u8; 4]; 6] = [
    [0, 1, 2, 6],
    [0, 1, 5, 6],
    [0, 3, 2, 6],
    [0, 3, 7, 6],
    [0, 4, 5, 6],
    [0, 4, 7, 6],
];

const HEX: [[u8; 8]; 1] = [[0, 1, 2, 3, 4, 5, 6, 7]];

/// The polytope of the cells of a kind.
pub(crate) fn poly_of_kind(kind: Kind) -> Poly
    ensures { result ≡ poly_of kind }
{
    match kind {
        Kind::Tri => Poly::Triangle,
        Kind::Quad => Poly::Quad,
        Kind::Tet => Poly::Tet,
        Kind::Hex => Poly::Hex,
    }
}

/// The dimension of the cells of a kind.
pub(crate) fn dim_of_kind(kind: Kind) -> Dim
    ensures { dim_number result ≡ dim_of (poly_of kind) }
{
    match kind {
        Kind::Tri | Kind::Quad => Dim::Two,
        Kind::Tet | Kind::Hex => Dim::Three,
    }
}

/// How many spots a grid of a kind has that is `side` long each way.
pub(crate) fn spot_count(kind: Kind, side: u32) -> u32
    requires side { side ≤ 501 }
    requires layers { layers kind side ≤ 63 }
    ensures { result ≡ layers kind side * (side * side) }
{
    let layer = side * side;
    match kind {
        Kind::Tri | Kind::Quad => layer,
        Kind::Tet | Kind::Hex => side * layer,
    }
}

/// How many cells a square or cube is cut into.
pub(crate) fn cut_count(kind: Kind) -> u32
    ensures { result ≡ length (cuts kind) }
{
    match kind {
        Kind::Tri => 2,
        Kind::Tet => 6,
        Kind::Quad | Kind::Hex => 1,
    }
}

/// The corners of cell `k` of a square or cube.
fn cut(kind: Kind, k: usize) -> &'static [u8]
    requires { k < length (cuts kind) }
    ensures corners { result.now ≡ get_or (cuts kind) k [] }
    ensures low { AllByRecursion (λ corner. corner < 8) result.now }
{
    match kind {
        Kind::Tri => &TRI[k],
        Kind::Quad => &QUAD[k],
        Kind::Tet => &TET[k],
        Kind::Hex => &HEX[k],
    }
}

/// Puts the vertices of cell `k` of a square or cube with these corners into a list, in place of what it has.
pub(crate) fn pick(
    kind: Kind,
    k: u32,
    corners: &[u32; 8],
    vertices: &mut Vec<u32>,
) -> Result<(), NoMemory>
    requires { k < length (cuts kind) }
    ensures { OnOk result (vertices.new.items ≡ picked corners.now (get_or (cuts kind) k [])) }
{
    vertices.clear();
    for &corner in cut(kind, k as usize) {
        vertices.push(corners[corner as usize])?;
    }
    Ok(())
}
