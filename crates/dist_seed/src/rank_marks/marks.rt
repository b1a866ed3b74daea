//! The marks on points of a rank's cells.

ghost use Rattle.std.specs.Prelude.{◌≡◌, ◌<◌, ◌≤◌, ◌^◌, [], ◌∷◌, ◌++◌, length, IfOk, OnOk};
ghost use Rattle.mesh_defs.specs.RightMesh.{IsRightMesh, AreCells};
ghost use Rattle.plex_base.specs.Dim.{dim_number};
ghost use Rattle.plex_mesh.specs.Right.{mark_at};
ghost use Rattle.dist_state.specs.scatter_state.Parts.{marks_of};
ghost use Rattle.headline_laws.specs.seed_laws.Given.{marks_on_cells, vertices_of};
ghost use Rattle.dist_seed.specs.rank_marks.Own.{AreOwn};

use crate::rank_cells::RankCells;
use crate::rank_marks::own_points::OwnPoints;
use dist_state::scatter_state::MarkHead;
use plex_base::{Dim, NoMemory};
use plex_mesh::Mesh;
use sf_fabric::FlatLists;
use sf_fabric::flat_lists::ListsBuilder;
use std::alloc::Global;
use std::marker::Model;
use std::thread::Threads;

/// More marks than these no rank is given: memory for them can't be had.
const TOO_MANY_MARKS: usize = 4_294_967_296;

/// Marks that are kept one after another. Contracts see the marks so far.
#[derive(Drop)]
struct MarksBuilder {
    heads: Vec<MarkHead>,
    vertices: ListsBuilder<u32>,
}

impl Model for MarksBuilder {
    ghost use Rattle.std.specs.Prelude.{◌≡◌, List, length};
    ghost use Rattle.mesh_defs.specs.Mesh.{Mark};
    ghost use Rattle.dist_state.specs.scatter_state.Parts.{marks_of};

    ghost Value = { List Mark };

    ghost view = { λ b. marks_of b.heads.items b.vertices };

    ghost invariant = { λ b. length b.vertices ≡ length b.heads.items };
}

impl MarksBuilder {
    fn new(alloc: Global) -> Result<MarksBuilder, NoMemory>
        ensures { IfOk result (λ b. b ≡ []) }
    {
        let vertices = ListsBuilder::new(alloc)?;
        Ok(MarksBuilder {
            heads: Vec::new(alloc),
            vertices,
        })
    }

    /// Puts a mark at the end.
    fn push(&mut self, dim: Dim, vertices: &[u32], value: i32) -> Result<(), NoMemory>
        ensures { OnOk result (self.new ≡ self.old ++ record { dim = dim_number dim; vertices = vertices.now; value = value } ∷ []) }
    {
        self.heads.reserve(1)?;
        self.vertices.push(vertices)?;
        self.heads.push_reserved(MarkHead { dim, value });
        Ok(())
    }

    fn finish(self) -> RankMarks
        ensures marks { marks_of result.heads.items result.vertices ≡ self }
        ensures full { length result.vertices ≡ length result.heads.items }
    {
        let MarksBuilder { heads, vertices } = self;
        let vertices = vertices.finish();
        RankMarks { heads, vertices }
    }
}

/// Marks: of each its dimension and value, and its vertices.
#[derive(Debug, Drop)]
pub struct RankMarks {
    pub heads: Vec<MarkHead>,
    pub vertices: FlatLists<u32>,
}

/// Keeps mark `i` of a mesh.
fn keep_mark(kept: &mut MarksBuilder, mesh: &Mesh, i: usize) -> Result<(), NoMemory>
    requires { i < length mesh.now.marks }
    ensures { OnOk result (kept.new ≡ kept.old ++ mark_at mesh.now.marks i ∷ []) }
{
    let (dim, vertices, value) = mesh.mark(i);
    kept.push(dim, vertices, value)?;
    Ok(())
}

/// Keeps the marks of a mesh on points of these cells.
fn keep_marks(
    kept: &mut MarksBuilder,
    mesh: &Mesh,
    own: &RankCells,
    points: &OwnPoints,
) -> Result<(), NoMemory>
    requires right { IsRightMesh mesh.now }
    requires own { AreOwn mesh.now own.now points.now }
    requires cells { AreCells mesh.now own.now.cells }
    requires none { kept.old ≡ [] }
    ensures { OnOk result (kept.new ≡ marks_on_cells mesh.now own.now.cells) }
{
    for i in 0..mesh.marks() {
        if points.has_marked(mesh, own, i) {
            keep_mark(kept, mesh, i)?;
        }
    }
    Ok(())
}

/// The marks of a mesh on points that some of these cells of the mesh contains, in their order. With the
/// cells come their vertices.
///
/// Fails only for want of memory.
pub fn rank_marks<R: Threads + Sync>(
    rt: &R,
    alloc: Global,
    mesh: &Mesh,
    own: &RankCells,
) -> Result<RankMarks, NoMemory>
    requires cells { AreCells mesh.now own.now.cells }
    requires vertices { own.now.vertices ≡ vertices_of (length mesh.now.at) own.now.cells }
    requires few { length own.now.cells ≤ 250000 }
    ensures marks { IfOk result (λ marks. marks_of marks.heads.items marks.vertices ≡ marks_on_cells mesh.now own.now.cells) }
    ensures full { IfOk result (λ marks. length marks.vertices ≡ length marks.heads.items) }
    ensures few { IfOk result (λ marks. length marks.heads.items < 2 ^ 32) }
{
    if mesh.marks() >= TOO_MANY_MARKS {
        return Err(NoMemory);
    }
    let kept = kept_marks(rt, alloc, mesh, own)?;
    Ok(kept.finish())
}

/// The same marks as they are kept. Where the mesh has none, nothing is made to look them up.
fn kept_marks<R: Threads + Sync>(
    rt: &R,
    alloc: Global,
    mesh: &Mesh,
    own: &RankCells,
) -> Result<MarksBuilder, NoMemory>
    requires cells { AreCells mesh.now own.now.cells }
    requires vertices { own.now.vertices ≡ vertices_of (length mesh.now.at) own.now.cells }
    requires few { length own.now.cells ≤ 250000 }
    ensures { IfOk result (λ kept. kept ≡ marks_on_cells mesh.now own.now.cells) }
{
    // It is a right mesh: the proof takes this from the call.
    let _dim = mesh.dim();
    let mut kept = MarksBuilder::new(alloc)?;
    if mesh.marks() == 0 {
        return Ok(kept);
    }
    let points = OwnPoints::of(rt, alloc, mesh, own)?;
    keep_marks(&mut kept, mesh, own, &points)?;
    Ok(kept)
}
