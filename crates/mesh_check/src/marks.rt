//! The label values of the mesh.

ghost use Rattle.std.specs.Prelude.{◌≡◌, ◌==◌, ◌&&◌, [], map, nat_abs, not, OnOk};
ghost use Rattle.input_defs.specs.Meshes.{vertex_nodes, cells_of, marks_of, point_of_element, is_point_of};
ghost use Rattle.mesh_check.specs.Partly.{partly, coordinates};

use crate::element_places::{ElementPlaces, dim_of_type};
use crate::mesh_vertices::Vertices;
use crate::positions::put_positions;
use plex_base::NoMemory;
use plex_mesh::MeshBuilder;
use std::alloc::Global;

/// Whether an element has a label value on a point: its physical tag is not 0.
fn is_marked(on_point: bool, physical: i32) -> bool
    ensures { result ≡ (not (nat_abs physical == 0) && on_point) }
{
    physical != 0 && on_point
}

/// Adds the label values of all elements that are on points, merged or not, in file order.
pub(crate) fn add_marks(
    alloc: Global,
    builder: &mut MeshBuilder,
    places: &ElementPlaces<'_>,
    vertices: &Vertices,
    on_points: &[bool],
) -> Result<(), NoMemory>
    requires vertices { vertices.now ≡ vertex_nodes places.now }
    requires on_points { on_points.now ≡ map (λ e. is_point_of (cells_of places.now) (point_of_element (vertex_nodes places.now) e)) places.now.elements }
    requires start { builder.old ≡ partly places.now (coordinates places.now) (cells_of places.now) [] [] [] }
    ensures { OnOk result (builder.new ≡ partly places.now (coordinates places.now) (cells_of places.now) (marks_of places.now) [] []) }
{
    let text = places.text();
    // There are at most 1,000,000 elements: the proof takes this from the call.
    let _nodes = text.nodes();
    let mut positions = Vec::new(alloc);
    for (i, on_point) in on_points.iter().enumerate() {
        let element = text.element(i);
        if is_marked(*on_point, element.physical) {
            put_positions(vertices, element.nodes, &mut positions)?;
            builder.add_mark(dim_of_type(element.kind), &positions, element.physical)?;
        }
    }
    Ok(())
}
