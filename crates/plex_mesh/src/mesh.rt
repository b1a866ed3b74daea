ghost use Rattle.std.specs.Prelude.{◌≡◌, ◌<◌, ◌^◌, length, Some};
ghost use Rattle.std.specs.List.{slice_get};
ghost use Rattle.mesh_defs.specs.RightMesh.{IsSoundCell, IsRightMesh};
ghost use Rattle.plex_base.specs.Dim.{dim_number};
ghost use Rattle.plex_base.specs.DataFields.{section_on};
ghost use Rattle.plex_mesh.specs.Right.{cell_at, mark_at};

use crate::lists::Lists;
use mesh_defs::Poly;
use plex_base::{DataField, Dim, Place};
use std::marker::Model;

/// The accepted mesh: vertices by position, cells by place, marks of labels, data sections, names
/// and counts, each list in the order of the file. No call takes memory.
#[derive(Debug, Drop)]
pub struct Mesh {
    lists: Lists,
}

impl Model for Mesh {
    ghost use Rattle.mesh_defs.specs.Mesh.{Mesh as WholeMesh};

    ghost Value = { WholeMesh };

    ghost use Rattle.plex_mesh.specs.Meshes.{mesh_of};
    ghost use Rattle.plex_mesh.specs.Right.{IsFinished};

    ghost view = { λ a. mesh_of a.lists };

    ghost invariant = { λ a. IsFinished (mesh_of a.lists) };
}

impl Mesh {
    ghost use Rattle.plex_mesh.specs.Meshes.{mesh_of};

    pub(crate) fn from_lists(lists: Lists) -> Mesh
        requires right { IsRightMesh (mesh_of lists) }
        requires few_vertices { length lists.at.items < 2 ^ 32 }
        ensures { result ≡ mesh_of lists }
    {
        Mesh { lists }
    }

    /// The dimension of the cells, 2 or 3.
    pub fn dim(&self) -> Dim
        ensures dim { dim_number result ≡ self.now.dim }

        // What every mesh is.
        ensures right { IsRightMesh self.now }
    {
        self.lists.dim
    }

    /// How many vertices there are, named by their positions from 0.
    pub fn vertices(&self) -> u32
        ensures { result ≡ length self.now.at }
    {
        self.lists.at.len() as u32
    }

    /// The coordinates of a vertex, in 10^-10.
    pub fn at(&self, v: u32) -> [i64; 3]
        requires { v < length self.now.at }
        ensures { slice_get self.now.at v ≡ Some result }
    {
        self.lists.at[v as usize]
    }

    /// How many cells there are, at most 250,000, named by their places from 0.
    pub fn cells(&self) -> u32
        ensures { result ≡ length self.now.cells }
    {
        self.lists.cells.len() as u32
    }

    /// The polytope of a cell.
    pub fn cell_poly(&self, c: u32) -> Poly
        requires { c < length self.now.cells }
        ensures { result ≡ (cell_at self.now.cells c).poly }
    {
        self.lists.cells.poly(c as usize)
    }

    /// The vertices of a cell, in the order of its polytope's corners.
    pub fn cell(&self, c: u32) -> &[u32]
        requires { c < length self.now.cells }
        ensures vertices { result.now ≡ (cell_at self.now.cells c).vertices }
        ensures sound { IsSoundCell self.now (cell_at self.now.cells c) }
    {
        self.lists.cells.vertices(c as usize)
    }

    /// How many label values there are on points.
    pub fn marks(&self) -> usize
        ensures { result ≡ length self.now.marks }
    {
        self.lists.marks.len()
    }

    /// The dimension and the vertices of the point of mark `i`, from 0, and its label value.
    pub fn mark(&self, i: usize) -> (Dim, &[u32], i32)
        requires { i < length self.now.marks }
        ensures { mark_at self.now.marks i ≡ record { dim = dim_number result.0; vertices = result.1.now; value = result.2 } }
    {
        self.lists.marks.get(i)
    }

    /// How many data sections there are.
    pub fn fields(&self) -> usize
        ensures { result ≡ length self.now.fields }
    {
        self.lists.fields.len()
    }

    /// Data section `i`, from 0, and whether its rows belong to vertices or to cells, whose position
    /// or place is the number of each.
    pub fn field(&self, i: usize) -> (Place, &DataField)
        requires { i < length self.now.fields }
        ensures { slice_get self.now.fields i ≡ Some (section_on result.0 result.1.now) }
    {
        let placed = &self.lists.fields[i];
        (placed.on, &placed.field)
    }

    /// How many physical names there are.
    pub fn names(&self) -> usize
        ensures { result ≡ length self.now.names }
    {
        self.lists.names.len()
    }

    /// The dimension, the number and the text of physical name `i`, from 0.
    pub fn name(&self, i: usize) -> (u32, i32, &[u8])
        requires { i < length self.now.names }
        ensures { slice_get self.now.names i ≡ Some (record { dim = result.0; number = result.1; text = result.2.now }) }
    {
        let name = &self.lists.names[i];
        (name.dim, name.number, name.text.as_slice())
    }

    /// How many nodes of the file no cell uses.
    pub fn unused(&self) -> u32
        ensures { result ≡ self.now.unused }
    {
        self.lists.unused
    }

    /// How many elements of the file are on no point of the mesh.
    pub fn loose(&self) -> u32
        ensures { result ≡ self.now.loose }
    {
        self.lists.loose
    }

    /// How many elements of the file were merged with earlier ones.
    pub fn merged(&self) -> u32
        ensures { result ≡ self.now.merged }
    {
        self.lists.merged
    }
}
