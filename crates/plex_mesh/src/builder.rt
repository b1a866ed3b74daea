ghost use Rattle.std.specs.Prelude.{◌≡◌, ◌+◌, ◌<◌, ◌≤◌, ◌^◌, [], ◌∷◌, ◌++◌, length, IfOk, OnOk, OnErr};
ghost use Rattle.mesh_defs.specs.RightMesh.{IsSoundCell, IsOnPoint, IsRightMesh, UsesVertices};
ghost use Rattle.plex_base.specs.Dim.{dim_number};
ghost use Rattle.plex_base.specs.DataFields.{section_on};
ghost use Rattle.plex_mesh.specs.Right.{IsNewSet, IsComponents, AreKnownRows};

use crate::cells::Cells;
use crate::lists::{Lists, PlacedField, StoredName};
use crate::marks::Marks;
use crate::mesh::Mesh;
use mesh_defs::Poly;
use plex_base::{DataField, Dim, NoMemory, Place};
use std::alloc::Global;
use std::marker::Model;

/// A mesh whose parts are added one after another, as `DMPlexBuildFromCellList` takes them in one
/// piece. Contracts see it as the mesh of the parts so far. A call that fails for want of memory
/// has added nothing.
#[derive(Debug, Drop)]
pub struct MeshBuilder {
    lists: Lists,
}

impl Model for MeshBuilder {
    ghost use Rattle.mesh_defs.specs.Mesh.{Mesh as WholeMesh};

    ghost Value = { WholeMesh };

    ghost use Rattle.plex_mesh.specs.Meshes.{mesh_of};
    ghost use Rattle.plex_mesh.specs.Right.{IsRightSoFar};

    ghost view = { λ b. mesh_of b.lists };

    ghost invariant = { λ b. IsRightSoFar (mesh_of b.lists) };
}

impl MeshBuilder {
    /// A mesh without parts, of dimension 2 or 3. It keeps the allocator.
    pub fn new(alloc: Global, dim: Dim) -> MeshBuilder
        requires { 2 ≤ dim_number dim }
        ensures { result ≡ record { dim = dim_number dim; at = []; cells = []; marks = []; names = []; fields = []; unused = 0; loose = 0; merged = 0 } }
    {
        MeshBuilder {
            lists: Lists {
                dim,
                at: Vec::new(alloc),
                cells: Cells::new(alloc),
                marks: Marks::new(alloc),
                fields: Vec::new(alloc),
                names: Vec::new(alloc),
                unused: 0,
                loose: 0,
                merged: 0,
            },
        }
    }

    /// Adds a vertex with its coordinates, in 10^-10. Fewer than 2^32 - 1 vertices were added.
    ///
    /// Returns the position of the vertex, by which cells and marks name it.
    pub fn add_vertex(&mut self, at: [i64; 3]) -> Result<u32, NoMemory>
        requires { length self.old.at + 1 < 2 ^ 32 }
        ensures number { IfOk result (λ v. v ≡ length self.old.at) }
        ensures ok { OnOk result (self.new ≡ record self.old { at = self.old.at ++ at ∷ [] }) }
        ensures err { OnErr result (self.new ≡ self.old) }
    {
        let v = self.lists.at.len() as u32;
        self.lists.at.push(at)?;
        Ok(v)
    }

    /// Adds a cell: its polytope, of the mesh's dimension, and its vertices in the order of the
    /// polytope's corners. Fewer than 250,000 cells were added, the vertices were, they differ, and
    /// no earlier cell has the same set of them.
    ///
    /// Returns the place of the cell.
    pub fn add_cell(&mut self, poly: Poly, verts: &[u32]) -> Result<u32, NoMemory>
        requires few { length self.old.cells < 250000 }
        requires sound { IsSoundCell self.old (record { poly = poly; vertices = verts.now }) }
        requires fresh { IsNewSet self.old verts.now }

        ensures number { IfOk result (λ c. c ≡ length self.old.cells) }
        ensures ok { OnOk result (self.new ≡ record self.old { cells = self.old.cells ++ record { poly = poly; vertices = verts.now } ∷ [] }) }
        ensures err { OnErr result (self.new ≡ self.old) }
    {
        let c = self.lists.cells.len() as u32;
        self.lists.cells.push(poly, verts)?;
        Ok(c)
    }

    /// Adds a label value on the point of this dimension on these vertices: the physical tag of an
    /// element (Gmsh manual, MSH format). Fewer than 1,000,000 marks were added, and the point is one
    /// of a cell that was.
    pub fn add_mark(&mut self, dim: Dim, verts: &[u32], value: i32) -> Result<(), NoMemory>
        requires few { length self.old.marks < 1000000 }
        requires point { IsOnPoint self.old (record { dim = dim_number dim; vertices = verts.now; value = value }) }
        ensures ok { OnOk result (self.new ≡ record self.old { marks = self.old.marks ++ record { dim = dim_number dim; vertices = verts.now; value = value } ∷ [] }) }
        ensures err { OnErr result (self.new ≡ self.old) }
    {
        self.lists.marks.push(dim, verts, value)
    }

    /// Adds a data section whose values belong to vertices or to cells. Fewer than 16 were added, it
    /// has 1, 3 or 9 components, and the number of each row is the position of a vertex or the place
    /// of a cell that was added.
    pub fn add_field(&mut self, f: DataField, on: Place) -> Result<(), NoMemory>
        requires few { length self.old.fields < 16 }
        requires components { IsComponents f.comps }
        requires rows { AreKnownRows self.old on f.rows }
        ensures ok { OnOk result (self.new ≡ record self.old { fields = self.old.fields ++ section_on on f ∷ [] }) }
        ensures err { OnErr result (self.new ≡ self.old) }
    {
        // Its rows are as long as it says: the proof takes this from the call.
        let _comps = f.comps();
        self.lists.fields.push(PlacedField { on, field: f })?;
        Ok(())
    }

    /// Adds a physical name, without its quotes: its dimension and number (Gmsh manual, MSH format).
    pub fn add_name(&mut self, dim: u32, number: i32, name: &[u8]) -> Result<(), NoMemory>
        ensures ok { OnOk result (self.new ≡ record self.old { names = self.old.names ++ record { dim = dim; number = number; text = name.now } ∷ [] }) }
        ensures err { OnErr result (self.new ≡ self.old) }
    {
        let text = Vec::from_slice(*self.lists.at.allocator(), name)?;
        self.lists.names.push(StoredName { dim, number, text })?;
        Ok(())
    }

    /// Sets how many nodes no cell uses, how many elements are on no point, and how many were merged
    /// with earlier ones. Without this call all three are 0.
    pub fn counts(&mut self, unused: u32, loose: u32, merged: u32)
        ensures { self.new ≡ record self.old { unused = unused; loose = loose; merged = merged } }
    {
        self.lists.unused = unused;
        self.lists.loose = loose;
        self.lists.merged = merged;
    }

    /// The mesh, once there is a cell and each vertex stands in some cell.
    pub fn finish(self) -> Mesh
        requires some_cell { 1 ≤ length self.cells }
        requires used { UsesVertices self }
        ensures same { result ≡ self }
        ensures right { IsRightMesh result }
    {
        let MeshBuilder { lists } = self;
        Mesh::from_lists(lists)
    }
}
