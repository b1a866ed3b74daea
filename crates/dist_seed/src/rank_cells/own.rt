//! What a rank holds of cells and vertices.
ghost use Rattle.std.specs.Prelude.{◌≡◌, ◌<◌, length, map, IfOk};
ghost use Rattle.dist_state.specs.scatter_state.Parts.{cells_of, cell_at, number_of};
ghost use Rattle.dist_seed.specs.rank_cells.Own.{held_of, IsFull};

use crate::rank_cells::cells::{cells_of_rank, corners_of, polys_of};
use crate::rank_cells::vertices::vertices_of;
use mesh_defs::Poly;
use plex_base::NoMemory;
use plex_mesh::Mesh;
use sf_fabric::FlatLists;
use std::alloc::Global;
use std::marker::Model;

/// The cells of one rank, by their places in the whole mesh, and the vertices of these cells, by their
/// positions. Both rise.
#[derive(Debug, Drop)]
pub struct RankCells {
    cells: Vec<u32>,
    polys: Vec<Poly>,
    corners: FlatLists<u32>,
    vertices: Vec<u32>,
}

/// The lists of a [`RankCells`].
#[derive(Debug, Drop)]
pub struct CellLists {
    /// The places of the cells in the whole mesh.
    pub cells: Vec<u32>,
    /// The polytope of each cell.
    pub polys: Vec<Poly>,
    /// The vertices of each cell, in the order of its polytope's corners.
    pub corners: FlatLists<u32>,
    /// The vertices of the cells, by their positions in the whole mesh.
    pub vertices: Vec<u32>,
}

impl Model for RankCells {
    ghost use Rattle.dist_state.specs.scatter_state.Parts.{cells_of};
    ghost use Rattle.dist_seed.specs.rank_cells.Own.{Held, IsFull};

    ghost Value = { Held };

    ghost view = { λ own. record { cells = cells_of own.cells.items own.polys.items own.corners; vertices = own.vertices.items } };

    ghost invariant = { λ own. IsFull own.cells.items own.polys.items own.corners };
}

impl RankCells {
    /// How many cells there are.
    pub fn len(&self) -> usize
        ensures { result ≡ length self.now.cells }
    {
        self.cells.len()
    }

    /// The places of the cells in the whole mesh.
    pub fn cells(&self) -> &[u32]
        ensures { result.now ≡ map number_of self.now.cells }
    {
        &self.cells
    }

    /// The polytope of the `i`th cell.
    pub fn poly(&self, i: usize) -> Poly
        requires { i < length self.now.cells }
        ensures { result ≡ (cell_at self.now.cells i).1.poly }
    {
        self.polys[i]
    }

    /// The vertices of the `i`th cell, in the order of its polytope's corners.
    pub fn corners(&self, i: usize) -> &[u32]
        requires { i < length self.now.cells }
        ensures { result.now ≡ (cell_at self.now.cells i).1.vertices }
    {
        self.corners.list(i)
    }

    /// The vertices of the cells, by their positions in the whole mesh.
    pub fn vertices(&self) -> &[u32]
        ensures { result.now ≡ self.now.vertices }
    {
        &self.vertices
    }

    /// The lists of these cells and vertices. Takes no memory.
    pub fn into_lists(self) -> CellLists
        ensures cells { cells_of result.cells.items result.polys.items result.corners ≡ self.cells }
        ensures vertices { result.vertices.items ≡ self.vertices }
        ensures full { IsFull result.cells.items result.polys.items result.corners }
    {
        let RankCells {
            cells,
            polys,
            corners,
            vertices,
        } = self;
        CellLists {
            cells,
            polys,
            corners,
            vertices,
        }
    }
}

/// The cells that these ranks, one for each cell, give to a rank, and their vertices.
///
/// Fails only for want of memory.
pub fn rank_cells(
    alloc: Global,
    mesh: &Mesh,
    ranks: &[u32],
    rank: u32,
) -> Result<RankCells, NoMemory>
    requires { length ranks.now ≡ length mesh.now.cells }
    ensures { IfOk result (λ own. own ≡ held_of mesh.now ranks.now rank) }
{
    // There are at most 250,000 cells, with vertices of the mesh: the proof takes this from the call.
    let _dim = mesh.dim();
    let cells = cells_of_rank(alloc, ranks, rank)?;
    let polys = polys_of(alloc, mesh, &cells)?;
    let corners = corners_of(alloc, mesh, &cells)?;
    let vertices = vertices_of(alloc, mesh, &cells)?;
    Ok(RankCells {
        cells,
        polys,
        corners,
        vertices,
    })
}
