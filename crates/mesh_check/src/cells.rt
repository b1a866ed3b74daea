//! The cells of the mesh.

ghost use Rattle.std.specs.Prelude.{◌≡◌, [], Ok, OnOk};
ghost use Rattle.input_defs.specs.Meshes.{vertex_nodes, cells_of, mesh_of, accepted};
ghost use Rattle.mesh_check.specs.Partly.{partly, coordinates};

use crate::element_places::{ElementPlaces, poly_of_type};
use crate::mesh_vertices::Vertices;
use crate::positions::put_positions;
use plex_base::NoMemory;
use plex_mesh::MeshBuilder;
use std::alloc::Global;

/// Adds the cells, in file order.
pub(crate) fn add_cells(
    alloc: Global,
    builder: &mut MeshBuilder,
    places: &ElementPlaces<'_>,
    vertices: &Vertices,
) -> Result<(), NoMemory>
    requires accepted { accepted places.now ≡ Ok (mesh_of places.now) }
    requires vertices { vertices.now ≡ vertex_nodes places.now }
    requires start { builder.old ≡ partly places.now (coordinates places.now) [] [] [] [] }
    ensures { OnOk result (builder.new ≡ partly places.now (coordinates places.now) (cells_of places.now) [] [] []) }
{
    let text = places.text();
    // The mesh is a right one since the content is: the proof takes this from the call.
    let _nodes = text.nodes();
    let mut positions = Vec::new(alloc);
    for place in places.cells() {
        let element = text.element(*place as usize);
        put_positions(vertices, element.nodes, &mut positions)?;
        builder.add_cell(poly_of_type(element.kind), &positions)?;
    }
    Ok(())
}
