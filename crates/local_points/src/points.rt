ghost use Rattle.std.specs.Prelude.{◌≡◌, ◌<◌, ◌≤◌, length, slice_index, Some};
ghost use Rattle.std.specs.List.{slice_get};
ghost use Rattle.mesh_defs.specs.declared.Poly.TheVariants.{Segment};
ghost use Rattle.local_points.specs.Points.{row_at};

use crate::edges::Edges;
use crate::entries::Entries;
use crate::faces::Faces;
use mesh_defs::Poly;
use plex_base::PointKey;
use std::marker::Model;

/// The faces and edges of a list of cells, each once, as these cells alone see them.
///
/// Faces and edges are named by their places from 0 in the order of first sight: cell by cell in
/// the order of the list, and within a cell in the order of its table. That is the order of their
/// keys where the numbers of the cells rise. Only solids have faces here; a polygon is a cell.
#[derive(Drop)]
pub struct LocalPoints {
    faces: Faces,
    edges: Edges,
    face_places: Entries,
    edge_places: Entries,
}

impl Model for LocalPoints {
    ghost use Rattle.std.specs.Prelude.{◌≤◌, length};
    ghost use Rattle.local_points.specs.Points.{Local};

    ghost Value = { Local };

    ghost view = { λ p. record { faces = p.faces; edges = p.edges; face_places = p.face_places; edge_places = p.edge_places } };

    ghost invariant = { λ p. (length p.faces ≤ 1500000) × (length p.edges ≤ 3000000) };
}

impl LocalPoints {
    /// These faces and edges, and for each cell where it has them. Takes no memory.
    pub(crate) fn of_parts(
        faces: Faces,
        edges: Edges,
        face_places: Entries,
        edge_places: Entries,
    ) -> LocalPoints
        requires faces { length faces ≤ 1500000 }
        requires edges { length edges ≤ 3000000 }
        ensures { result ≡ record { faces = faces; edges = edges; face_places = face_places; edge_places = edge_places } }
    {
        LocalPoints {
            faces,
            edges,
            face_places,
            edge_places,
        }
    }

    /// How many faces there are.
    pub fn faces(&self) -> u32
        ensures count { result ≡ length self.now.faces }
        ensures few { result ≤ 1500000 }
    {
        self.faces.len() as u32
    }

    /// How many edges there are.
    pub fn edges(&self) -> u32
        ensures count { result ≡ length self.now.edges }
        ensures few { result ≤ 3000000 }
    {
        self.edges.len() as u32
    }

    /// Face `k`: its key, its polytope, and its vertices in the order of the cell that saw it first.
    pub fn face(&self, k: u32) -> (PointKey, Poly, &[u32])
        requires { k < length self.now.faces }
        ensures { slice_get self.now.faces k ≡ Some (record { key = result.0.0; poly = result.1; arrangement = result.2.now }) }
    {
        self.faces.get(k as usize)
    }

    /// Edge `k`: its key, and its ends in the order of the cell that saw it first.
    pub fn edge(&self, k: u32) -> (PointKey, [u32; 2])
        requires { k < length self.now.edges }
        ensures { slice_get self.now.edges k ≡ Some (record { key = result.0.0; poly = Segment; arrangement = result.1 }) }
    {
        self.edges.get(k as usize)
    }

    /// The place among the faces of face `f` of cell `i`.
    pub fn face_of(&self, i: usize, f: usize) -> u32
        requires cell { i < length self.now.face_places }
        requires face { f < length (row_at self.now.face_places i) }
        ensures { result ≡ slice_index (row_at self.now.face_places i) f }
    {
        self.face_places.get(i, f)
    }

    /// The place among the edges of edge `e` of cell `i`.
    pub fn edge_of(&self, i: usize, e: usize) -> u32
        requires cell { i < length self.now.edge_places }
        requires edge { e < length (row_at self.now.edge_places i) }
        ensures { result ≡ slice_index (row_at self.now.edge_places i) e }
    {
        self.edge_places.get(i, e)
    }
}
