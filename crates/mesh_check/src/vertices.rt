//! The vertices of the mesh.

ghost use Rattle.std.specs.Prelude.{◌≡◌, [], map, OnOk};
ghost use Rattle.input_defs.specs.Content.{Node};

use crate::mesh_vertices::Vertices;
use plex_base::NoMemory;
use plex_mesh::MeshBuilder;

/// Adds the vertices to a mesh that has none.
pub(crate) fn add_vertices(builder: &mut MeshBuilder, vertices: &Vertices) -> Result<(), NoMemory>
    requires { builder.old.at ≡ [] }
    ensures { OnOk result (builder.new ≡ record builder.old { at = map (λ (node : Node). node.at) vertices.now }) }
{
    for v in 0..vertices.len() {
        builder.add_vertex(vertices.at(v))?;
    }
    Ok(())
}
