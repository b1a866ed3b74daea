ghost use Rattle.std.specs.Prelude.{◌≡◌, ◌≤◌, [], OnOk};
ghost use Rattle.input_defs.specs.Words.{most as greatest};
ghost use Rattle.input_defs.specs.Generated.{made};
ghost use Rattle.mesh_make.specs.Spots.{partly};

use crate::cuts::{cut_count, pick, poly_of_kind, spot_count};
use crate::grid::Spot;
use input_defs::Kind;
use plex_base::NoMemory;
use plex_mesh::MeshBuilder;
use std::alloc::Global;

/// Adds the grid points as vertices.
pub(crate) fn add_points(builder: &mut MeshBuilder, kind: Kind, n: u32) -> Result<(), NoMemory>
    requires some { 1 ≤ n }
    requires few { n ≤ greatest kind }
    requires start { builder.old ≡ partly kind n [] [] }
    ensures { OnOk result (builder.new ≡ partly kind n (made kind n).at []) }
{
    let side = n + 1;
    for i in 0..spot_count(kind, side) {
        builder.add_vertex(Spot::of(side, i).coordinates())?;
    }
    Ok(())
}

/// Adds the cells of each square or cube.
pub(crate) fn add_cells(
    alloc: Global,
    builder: &mut MeshBuilder,
    kind: Kind,
    n: u32,
) -> Result<(), NoMemory>
    requires some { 1 ≤ n }
    requires few { n ≤ greatest kind }
    requires start { builder.old ≡ partly kind n (made kind n).at [] }
    ensures { OnOk result (builder.new ≡ made kind n) }
{
    let mut vertices = Vec::new(alloc);
    let each = cut_count(kind);
    for j in 0..spot_count(kind, n) * each {
        let corners = Spot::of(n, j / each).corners(n);
        pick(kind, j % each, &corners, &mut vertices)?;
        builder.add_cell(poly_of_kind(kind), &vertices)?;
    }
    Ok(())
}
