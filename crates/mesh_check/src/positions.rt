//! Nodes as vertices.

ghost use Rattle.std.specs.Prelude.{◌≡◌, map, OnOk};
ghost use Rattle.input_defs.specs.Meshes.{vertex_of};

use crate::mesh_vertices::Vertices;
use plex_base::NoMemory;

/// The position of a node among the vertices, past the last one for a node that is no vertex.
fn position(vertices: &Vertices, number: u32) -> u32
    ensures { result ≡ vertex_of vertices.now number }
{
    match vertices.position(number) {
        Some(position) => position,
        None => vertices.len(),
    }
}

/// Puts the positions of nodes in place of what the list has.
pub(crate) fn put_positions(
    vertices: &Vertices,
    nodes: &[u32],
    positions: &mut Vec<u32>,
) -> Result<(), NoMemory>
    ensures { OnOk result (positions.new.items ≡ map (vertex_of vertices.now) nodes.now) }
{
    positions.clear();
    for node in nodes {
        positions.push(position(vertices, *node))?;
    }
    Ok(())
}
