//! The vertices of a mesh file.

ghost use Rattle.std.specs.Prelude.{◌≡◌, ◌==◌, ◌<◌, ◌≤◌, Bool, length, map, filter, position, Some, IfOk, IfSome};
ghost use Rattle.std.specs.List.{slice_get};
ghost use Rattle.input_defs.specs.Content.{Node};
ghost use Rattle.input_defs.specs.Meshes.{greatest_dim, vertex_nodes, vertex_of};
ghost use Rattle.plex_base.specs.Dim.{dim_number};
ghost use Rattle.mesh_check.specs.mesh_vertices.Vertices.{vertex_views};
ghost use Rattle.mesh_check.specs.declared.mesh_vertices.vertices.FileVertex.{FileVertex as KeptVertex};

use crate::mesh_vertices::number_table::NumberTable;
use crate::mesh_vertices::used_nodes::used_nodes;
use msh_reader::MshText;
use plex_base::{Dim, NoMemory};
use std::alloc::{AllocError, Global};
use std::marker::Model;

/// A vertex: its number in the file, and its coordinates in 10^-10.
#[derive(Clone, Copy, Debug)]
pub(crate) struct FileVertex {
    number: u32,
    at: [i64; 3],
}

/// The vertices of a mesh file: the nodes that some element of the mesh's dimension has, in file
/// order. They are named by their positions from 0, as the points of depth 0 of a DMPlex.
#[derive(Debug, Drop)]
pub struct Vertices {
    vertices: Vec<FileVertex>,
    /// Their numbers.
    table: NumberTable,
}

impl Model for Vertices {
    ghost use Rattle.std.specs.Prelude.{List};
    ghost use Rattle.input_defs.specs.Content.{Node};

    ghost Value = { List Node };

    ghost use Rattle.std.specs.Prelude.{◌≡◌, ◌≤◌, length};
    ghost use Rattle.mesh_check.specs.mesh_vertices.Vertices.{vertex_views, numbers_of};

    ghost view = { λ v. vertex_views v.vertices.items };

    ghost invariant = { λ v. (v.table ≡ numbers_of (vertex_views v.vertices.items)) × (length v.vertices.items ≤ 500000) };
}

/// The nodes with a flag, of which each has one, in file order.
fn flagged_nodes(
    alloc: Global,
    text: &MshText,
    flags: &[bool],
) -> Result<Vec<FileVertex>, AllocError>
    requires { length flags.now ≡ length text.now.nodes }
    ensures flagged { IfOk result (λ vertices. (test : Node → Bool) → flags.now ≡ map test text.now.nodes → vertex_views vertices.items ≡ filter test text.now.nodes) }
    ensures few { IfOk result (λ vertices. length vertices.items ≤ 500000) }
{
    let mut vertices = Vec::new(alloc);
    for i in 0..text.nodes() {
        if flags[i] {
            let (number, at) = text.node(i);
            vertices.push(FileVertex { number, at })?;
        }
    }
    Ok(vertices)
}

/// The numbers of vertices.
fn numbers_of(alloc: Global, vertices: &[FileVertex]) -> Result<Vec<u32>, AllocError>
    ensures { IfOk result (λ numbers. numbers.items ≡ map (λ (v : KeptVertex). v.number) vertices.now) }
{
    vertices.iter().map(|vertex| vertex.number).collect(alloc)
}

impl Vertices {
    /// The vertices of a file whose elements have this dimension at most, and one of them has it.
    pub fn of(alloc: Global, text: &MshText, dim: Dim) -> Result<Vertices, NoMemory>
        requires { dim_number dim ≡ greatest_dim text.now }
        ensures { IfOk result (λ vertices. vertices ≡ vertex_nodes text.now) }
    {
        let used = used_nodes(alloc, text, dim)?;
        let vertices = flagged_nodes(alloc, text, &used)?;
        let table = NumberTable::of(alloc, numbers_of(alloc, &vertices)?)?;
        Ok(Vertices { vertices, table })
    }

    /// How many vertices there are.
    pub fn len(&self) -> u32
        ensures { result ≡ length self.now }
    {
        self.vertices.len() as u32
    }

    /// The coordinates of a vertex, in 10^-10. Condition: `v` is below the number of vertices.
    pub fn at(&self, v: u32) -> [i64; 3]
        requires { v < length self.now }
        ensures { slice_get (map (λ (node : Node). node.at) self.now) v ≡ Some result }
    {
        self.vertices[v as usize].at
    }

    /// The position of the vertex of this number in the file, or none where no vertex has it.
    pub fn position(&self, number: u32) -> Option<u32>
        ensures position { result ≡ position (λ (node : Node). node.number == number) self.now }
        // So elements name their nodes once these are vertices.
        ensures vertex { IfSome result (λ v. (v ≡ vertex_of self.now number) × (v < length self.now)) }
    {
        self.table.place(number)
    }
}
