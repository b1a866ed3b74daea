//! The faces and edges of a list of cells with the tables by which they are found.

ghost use Rattle.std.specs.Prelude.{◌≡◌, [], ◌∷◌, position, IfOk};
ghost use Rattle.plain_lists.specs.Lists.{sorted};
ghost use Rattle.mesh_defs.specs.declared.Poly.TheVariants.{Segment};
ghost use Rattle.mesh_defs.specs.Points.{shows, point_on};
ghost use Rattle.local_points.specs.Cells.{AreFit};
ghost use Rattle.local_points.specs.Points.{local_points};

use crate::cell_list::CellList;
use crate::edges::join_edges;
use crate::faces::{join_faces, set_on};
use crate::points::LocalPoints;
use crate::sets::rising_two;
use indexmap::IndexSet;
use plex_base::NoMemory;
use std::alloc::Global;
use std::marker::Model;
use std::thread::Threads;

/// The faces and edges of a list of cells, and the tables by which they are found on their vertices.
///
/// The tables cost as much again as the points, so whoever looks up no more gives them back by
/// [`into_local`](PointFinder::into_local).
#[derive(Drop)]
pub struct PointFinder {
    /// The vertices of each face, rising, with 2^32 - 1 behind those of a triangle.
    face_sets: IndexSet<[u32; 4]>,
    /// The ends of each edge, the smaller one first.
    edge_sets: IndexSet<[u32; 2]>,
    local: LocalPoints,
}

impl Model for PointFinder {
    ghost use Rattle.local_points.specs.Points.{Local};
    ghost use Rattle.local_points.specs.Stored.{AreFound};

    ghost Value = { Local };

    ghost view = { λ p. p.local };

    ghost invariant = { λ p. AreFound p.face_sets.keys p.edge_sets.keys p.local };
}

impl PointFinder {
    /// Finds the faces and edges of these cells: at most 250,000 polygons and solids with numbers
    /// below 250,000, as many vertices as corners, each below 2^32 - 1.
    ///
    /// What each cell sees is listed in as many threads as there are processors; then all of it is
    /// numbered in one. `NoMemory` comes for want of memory alone.
    pub fn of<R: Threads + Sync, C: CellList + Sync>(
        rt: &R,
        alloc: Global,
        cells: &C,
    ) -> Result<PointFinder, NoMemory>
        requires { AreFit (C.cells cells.now) }
        ensures { IfOk result (λ p. p ≡ local_points (C.cells cells.now)) }
    {
        let (face_table, face_places) = join_faces(rt, alloc, cells)?;
        let (edge_table, edge_places) = join_edges(rt, alloc, cells)?;
        let (face_sets, faces) = face_table.into_parts();
        let (edge_sets, edges) = edge_table.into_parts();
        Ok(PointFinder {
            face_sets,
            edge_sets,
            local: LocalPoints::of_parts(faces, edges, face_places, edge_places),
        })
    }

    /// The faces and edges, and where each cell has them.
    pub fn local(&self) -> &LocalPoints
        ensures { result.now ≡ self.now }
    {
        &self.local
    }

    /// The faces and edges without the tables. Takes no memory.
    pub fn into_local(self) -> LocalPoints
        ensures { result ≡ self }
    {
        self.local
    }

    /// The place of the face on these vertices, in any order; none where no cell has it.
    pub fn find_face(&self, vertices: &[u32]) -> Option<u32>
        ensures { result ≡ position (shows (record { dim = 2; vertices = sorted vertices.now })) self.now.faces }
    {
        let place = self.face_sets.get_index_of(&set_on(vertices)?)?;
        Some(place as u32)
    }

    /// The place of the edge between two vertices, in any order; none where no cell has it.
    pub fn find_edge(&self, a: u32, b: u32) -> Option<u32>
        ensures { result ≡ position (shows (point_on Segment (a ∷ b ∷ []))) self.now.edges }
    {
        let place = self.edge_sets.get_index_of(&rising_two([a, b]))?;
        Some(place as u32)
    }
}
