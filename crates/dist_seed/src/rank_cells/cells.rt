//! The cells of a rank.
ghost use Rattle.std.specs.Prelude.{◌≡◌, ◌==◌, ◌<◌, ◌≤◌, ◌^◌, length, map, filter, slice_index, IfOk};
ghost use Rattle.std.specs.List.{AllByRecursion};
ghost use Rattle.plain_lists.specs.Lists.{below};
ghost use Rattle.plex_mesh.specs.Right.{cell_at};

use mesh_defs::Poly;
use plex_base::NoMemory;
use plex_mesh::Mesh;
use sf_fabric::FlatLists;
use sf_fabric::flat_lists::ListsBuilder;
use std::alloc::Global;

/// The places of the cells that have this rank, rising.
pub(crate) fn cells_of_rank(alloc: Global, ranks: &[u32], rank: u32) -> Result<Vec<u32>, NoMemory>
    requires { length ranks.now ≤ 250000 }
    ensures { IfOk result (λ cells. cells.items ≡ filter (λ c. slice_index ranks.now c == rank) (below (length ranks.now))) }
{
    let mut cells = Vec::new(alloc);
    for c in 0..ranks.len() {
        if ranks[c] == rank {
            cells.push(c as u32)?;
        }
    }
    Ok(cells)
}

/// The polytope of each of these cells.
pub(crate) fn polys_of(alloc: Global, mesh: &Mesh, cells: &[u32]) -> Result<Vec<Poly>, NoMemory>
    requires { AllByRecursion (λ c. c < length mesh.now.cells) cells.now }
    ensures { IfOk result (λ polys. polys.items ≡ map (λ c. (cell_at mesh.now.cells c).poly) cells.now) }
{
    let mut polys = Vec::with_capacity(alloc, cells.len())?;
    for c in cells {
        polys.push(mesh.cell_poly(*c))?;
    }
    Ok(polys)
}

/// The vertices of each of these cells.
pub(crate) fn corners_of(
    alloc: Global,
    mesh: &Mesh,
    cells: &[u32],
) -> Result<FlatLists<u32>, NoMemory>
    requires { AllByRecursion (λ c. c < length mesh.now.cells) cells.now }
    ensures { IfOk result (λ corners. corners ≡ map (λ c. (cell_at mesh.now.cells c).vertices) cells.now) }
{
    let mut corners = ListsBuilder::new(alloc)?;
    for c in cells {
        corners.push(mesh.cell(*c))?;
    }
    Ok(corners.finish())
}
