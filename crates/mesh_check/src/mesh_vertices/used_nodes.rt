//! Which nodes of a file are vertices.

ghost use Rattle.std.specs.Prelude.{◌≡◌, map, unwrap_or, IfOk};
ghost use Rattle.mesh_defs.specs.declared.Poly.TheVariants.{Vertex};
ghost use Rattle.mesh_defs.specs.Tables.{dim_of};
ghost use Rattle.input_defs.specs.Sections.{poly_of_type};
ghost use Rattle.input_defs.specs.Meshes.{greatest_dim};
ghost use Rattle.input_defs.specs.RightContent.{node_numbers};
ghost use Rattle.plex_base.specs.Dim.{dim_number};
ghost use Rattle.mesh_check.specs.mesh_vertices.Vertices.{is_used_by};

use crate::mesh_vertices::flags::set_flags;
use crate::mesh_vertices::number_table::NumberTable;
use msh_reader::MshText;
use plex_base::{Dim, NoMemory};
use std::alloc::{AllocError, Global};

/// The dimension of the elements of a type of the Gmsh manual. A type that is not read counts as a
/// point.
fn dim_of_type(kind: u32) -> u32
    ensures { result ≡ dim_of (unwrap_or (poly_of_type kind) Vertex) }
{
    match kind {
        1 => 1,
        2 | 3 => 2,
        4 | 5 => 3,
        _ => 0,
    }
}

/// The numbers of the nodes of a file, in file order.
fn node_numbers(alloc: Global, text: &MshText) -> Result<Vec<u32>, AllocError>
    ensures { IfOk result (λ numbers. numbers.items ≡ node_numbers text.now) }
{
    let mut numbers = Vec::with_capacity(alloc, text.nodes())?;
    for i in 0..text.nodes() {
        numbers.push(text.node(i).0)?;
    }
    Ok(numbers)
}

/// For each node of a file, in file order, whether an element of the mesh's dimension has it.
pub(crate) fn used_nodes(alloc: Global, text: &MshText, dim: Dim) -> Result<Vec<bool>, NoMemory>
    requires { dim_number dim ≡ greatest_dim text.now }
    ensures { IfOk result (λ used. used.items ≡ map (is_used_by text.now text.now.elements) (node_numbers text.now)) }
{
    let mut used = vec![in alloc; false; text.nodes()]?;
    let table = NumberTable::of(alloc, node_numbers(alloc, text)?)?;
    for i in 0..text.elements() {
        let element = text.element(i);
        if dim_of_type(element.kind) == dim.number() {
            set_flags(&mut used, &table, element.nodes);
        }
    }
    Ok(used)
}
