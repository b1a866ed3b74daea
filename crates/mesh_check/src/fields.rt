//! The data sections of the mesh.

ghost use Rattle.std.specs.Prelude.{◌≡◌, [], map, true, Ok, IfOk, OnOk};
ghost use Rattle.input_defs.specs.RightContent.{element_numbers as numbers_of};
ghost use Rattle.input_defs.specs.Meshes.{vertex_nodes, cells_of, section_on, mesh_of, accepted};
ghost use Rattle.mesh_check.specs.data_rows.Naming.{has_element_data};
ghost use Rattle.mesh_check.specs.Partly.{coordinates};

use crate::data_rows::{element_numbers, field_on_mesh, needs_element_numbers};
use crate::element_places::ElementPlaces;
use crate::mesh_vertices::{NumberTable, Vertices};
use msh_reader::MshText;
use plex_base::NoMemory;
use plex_mesh::MeshBuilder;
use std::alloc::Global;

/// The numbers of the elements where rows of data name them, and no numbers otherwise.
fn named_numbers(alloc: Global, text: &MshText) -> Result<NumberTable, NoMemory>
    ensures { IfOk result (λ numbers. has_element_data text.now.fields ≡ true → numbers ≡ numbers_of text.now) }
{
    if needs_element_numbers(text) {
        element_numbers(alloc, text)
    } else {
        Ok(NumberTable::of(alloc, Vec::new(alloc))?)
    }
}

/// Adds the data sections of a file to a mesh that has its vertices and cells and no section yet, in
/// file order.
pub(crate) fn add_fields(
    alloc: Global,
    builder: &mut MeshBuilder,
    places: &ElementPlaces<'_>,
    vertices: &Vertices,
) -> Result<(), NoMemory>
    requires accepted { accepted places.now ≡ Ok (mesh_of places.now) }
    requires vertices { vertices.now ≡ vertex_nodes places.now }
    requires at { builder.old.at ≡ coordinates places.now }
    requires cells { builder.old.cells ≡ cells_of places.now }
    requires start { builder.old.fields ≡ [] }
    ensures { OnOk result (builder.new ≡ record builder.old { fields = map (section_on places.now) places.now.fields }) }
{
    let text = places.text();
    // The mesh is a right one since the content is: the proof takes this from the call.
    let _nodes = text.nodes();
    let numbers = named_numbers(alloc, text)?;
    for i in 0..text.fields() {
        let (on, field) = text.field(i);
        let moved = field_on_mesh(alloc, places, vertices, &numbers, on, field)?;
        builder.add_field(moved, on)?;
    }
    Ok(())
}
