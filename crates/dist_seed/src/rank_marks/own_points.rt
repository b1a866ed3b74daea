//! The points of a rank's cells, by which marks are looked up.

ghost use Rattle.std.specs.Prelude.{◌≡◌, ◌<◌, ◌≤◌, length, IfOk};
ghost use Rattle.std.specs.List.{AllByRecursion};
ghost use Rattle.mesh_defs.specs.Points.{marked_point};
ghost use Rattle.mesh_defs.specs.RightMesh.{IsRightMesh, AreCells, in_some};
ghost use Rattle.local_points.specs.Cells.{AreFit};
ghost use Rattle.local_points.specs.Points.{local_points};
ghost use Rattle.plex_mesh.specs.Right.{mark_at};
ghost use Rattle.headline_laws.specs.seed_laws.Given.{vertices_of};
ghost use Rattle.dist_seed.specs.rank_marks.Own.{AreTold, AreOwn};

use crate::rank_cells::RankCells;
use crate::rank_marks::cell_sets::CellSets;
use local_points::{CellList, PointFinder};
use mesh_defs::Poly;
use plex_base::{Dim, NoMemory};
use plex_mesh::Mesh;
use std::alloc::Global;
use std::thread::Threads;

/// The cells of a rank as a list of cells.
#[derive(Drop)]
struct OwnCells<'a> {
    own: &'a RankCells,
}

impl<'a> CellList for OwnCells<'a> {
    ghost cells = { λ a. a.own.now.cells };

    fn len(&self) -> usize {
        self.own.len()
    }

    fn number(&self, i: usize) -> u32 {
        self.own.cells()[i]
    }

    fn poly(&self, i: usize) -> Poly {
        self.own.poly(i)
    }

    fn corners(&self, i: usize) -> &[u32] {
        self.own.corners(i)
    }
}

/// The points of a rank's cells: of each vertex of the mesh whether it is one, the cells by their sets,
/// and the faces and edges between.
#[derive(Drop)]
pub(crate) struct OwnPoints {
    pub(crate) vertices: Vec<bool>,
    pub(crate) cells: CellSets,
    pub(crate) between: PointFinder,
}

/// Of so many numbers whether each is one of these.
fn told(alloc: Global, numbers: &[u32], count: u32) -> Result<Vec<bool>, NoMemory>
    requires { AllByRecursion (λ v. v < count) numbers.now }
    ensures { IfOk result (λ told. AreTold numbers.now count told.items) }
{
    let mut told = vec![in alloc; false; count as usize]?;
    for v in numbers {
        told[*v as usize] = true;
    }
    Ok(told)
}

/// The faces and edges of these cells.
fn points_between<R: Threads + Sync>(
    rt: &R,
    alloc: Global,
    own: &RankCells,
) -> Result<PointFinder, NoMemory>
    requires { AreFit own.now.cells }
    ensures { IfOk result (λ between. between ≡ local_points own.now.cells) }
{
    PointFinder::of(rt, alloc, &OwnCells { own })
}

impl OwnPoints {
    /// The points of these cells of a mesh.
    pub(crate) fn of<R: Threads + Sync>(
        rt: &R,
        alloc: Global,
        mesh: &Mesh,
        own: &RankCells,
    ) -> Result<OwnPoints, NoMemory>
        requires right { IsRightMesh mesh.now }
        requires cells { AreCells mesh.now own.now.cells }
        requires vertices { own.now.vertices ≡ vertices_of (length mesh.now.at) own.now.cells }
        requires few { length own.now.cells ≤ 250000 }
        ensures { IfOk result (λ points. AreOwn mesh.now own.now points) }
    {
        let vertices = told(alloc, own.vertices(), mesh.vertices())?;
        let cells = CellSets::of(alloc, own)?;
        let between = points_between(rt, alloc, own)?;
        Ok(OwnPoints {
            vertices,
            cells,
            between,
        })
    }

    /// Whether some of these cells contains the point of mark `i` of the mesh.
    pub(crate) fn has_marked(&self, mesh: &Mesh, own: &RankCells, i: usize) -> bool
        requires right { IsRightMesh mesh.now }
        requires own { AreOwn mesh.now own.now self.now }
        requires cells { AreCells mesh.now own.now.cells }
        requires mark { i < length mesh.now.marks }
        ensures { result ≡ in_some (marked_point (mark_at mesh.now.marks i)) own.now.cells }
    {
        let (dim, vertices, _) = mesh.mark(i);
        if dim.number() == mesh.dim().number() {
            return self.cells.has(own, vertices);
        }
        match dim {
            Dim::Zero => self.vertices[vertices[0] as usize],
            Dim::One => self.between.find_edge(vertices[0], vertices[1]).is_some(),
            _ => self.between.find_face(vertices).is_some(),
        }
    }
}
