//! The rows of a data section on a mesh.

ghost use Rattle.std.specs.Prelude.{◌≡◌, IfOk};
ghost use Rattle.input_defs.specs.Meshes.{vertex_nodes, section_on as section_on_mesh};
ghost use Rattle.plex_base.specs.DataFields.{section_on};
ghost use Rattle.mesh_check.specs.data_rows.Naming.{KnowsElements};

use crate::data_rows::naming::place_named;
use crate::element_places::ElementPlaces;
use crate::mesh_vertices::{NumberTable, Vertices};
use plex_base::{DataField, NoMemory, Place};
use std::alloc::Global;

/// A data section of a mesh file on the mesh: its rows name vertices by position, or cells by place,
/// and rows of unused nodes and of elements on whose nodes there is no cell are dropped.
///
/// The vertices are those of the file. `numbers` are the numbers of its elements where `on` is
/// `Element`, and may be any otherwise. An element number that stands twice means its first element.
pub fn field_on_mesh(
    alloc: Global,
    places: &ElementPlaces<'_>,
    vertices: &Vertices,
    numbers: &NumberTable,
    on: Place,
    field: &DataField,
) -> Result<DataField, NoMemory>
    requires vertices { vertices.now ≡ vertex_nodes places.now }
    requires numbers { KnowsElements on numbers.now places.now }
    ensures { IfOk result (λ moved. section_on on moved ≡ section_on_mesh places.now (section_on on field.now)) }
{
    let mut named = Vec::new(alloc);
    let mut values = Vec::new(alloc);
    for i in 0..field.rows() {
        let (number, row) = field.row(i);
        if let Some(place) = place_named(places, vertices, numbers, on, number) {
            named.push(place)?;
            values.extend_from_slice(row)?;
        }
    }
    let name = Vec::from_slice(alloc, field.name())?;
    Ok(DataField::new(name, field.comps(), named, values))
}
