ghost use Rattle.std.specs.Prelude.{◌≡◌, ◌≤◌, IfOk};
ghost use Rattle.input_defs.specs.Words.{most as greatest};
ghost use Rattle.input_defs.specs.Generated.{made};

use crate::cells::{add_cells, add_points};
use crate::cuts::dim_of_kind;
use input_defs::Kind;
use plex_base::NoMemory;
use plex_mesh::{Mesh, MeshBuilder};
use std::alloc::Global;

/// The greatest number of squares or cubes each way, by which a mesh has at most 250,000 cells.
pub fn most(kind: Kind) -> u32
    ensures { result ≡ greatest kind }
{
    match kind {
        Kind::Tri => 353,
        Kind::Quad => 500,
        Kind::Tet => 34,
        Kind::Hex => 62,
    }
}

/// The generated mesh of a kind with `n` squares or cubes each way, from 1 to the greatest number of the
/// kind. Its vertices have whole coordinates, and it has no marks, names or data.
///
/// Fails only for want of memory.
pub fn make(alloc: Global, kind: Kind, n: u32) -> Result<Mesh, NoMemory>
    requires some { 1 ≤ n }
    requires few { n ≤ greatest kind }
    ensures { IfOk result (λ mesh. mesh ≡ made kind n) }
{
    let mut builder = MeshBuilder::new(alloc, dim_of_kind(kind));
    add_points(&mut builder, kind, n)?;
    add_cells(alloc, &mut builder, kind, n)?;
    Ok(builder.finish())
}
