//! The accepted mesh of a file.

ghost use Rattle.std.specs.Prelude.{◌≡◌, ◌≢◌, Ok, Err, IfOk, IfErr};
ghost use Rattle.input_defs.specs.Meshes.{mesh_of, accepted};

use crate::cells::add_cells;
use crate::element_places::ElementPlaces;
use crate::element_points::{count_loose, on_points};
use crate::fields::add_fields;
use crate::marks::add_marks;
use crate::mesh_vertices::Vertices;
use crate::names::add_names;
use crate::verdict::fault_of;
use crate::vertices::add_vertices;
use input_defs::MeshFault;
use msh_reader::MshText;
use plex_base::NoMemory;
use plex_mesh::{Mesh, MeshBuilder};
use std::alloc::Global;

/// The mesh of a content that stands for one.
fn mesh_of(alloc: Global, places: &ElementPlaces<'_>) -> Result<Mesh, NoMemory>
    requires { accepted places.now ≡ Ok (mesh_of places.now) }
    ensures { IfOk result (λ mesh. mesh ≡ mesh_of places.now) }
{
    let text = places.text();
    // The mesh is a right one since the content is: the proof takes this from the call.
    let nodes = text.nodes() as u32;
    let vertices = Vertices::of(alloc, text, places.greatest_dim())?;
    let on = on_points(alloc, places)?;
    let mut builder = MeshBuilder::new(alloc, places.greatest_dim());
    add_vertices(&mut builder, &vertices)?;
    add_cells(alloc, &mut builder, places, &vertices)?;
    add_marks(alloc, &mut builder, places, &vertices, &on)?;
    add_names(&mut builder, text)?;
    add_fields(alloc, &mut builder, places, &vertices)?;
    let merged = text.elements() as u32 - places.kept();
    builder.counts(nodes - vertices.len(), count_loose(places, &on), merged);
    Ok(builder.finish())
}

/// The mesh of what a mesh file says, or the first cause why it has none: its elements have
/// dimension 0 or 1 at most, more than [`MAX_CELLS`](plex_base::MAX_CELLS) cells remain once
/// elements on the same nodes are merged, or two elements on the same nodes are related by no
/// orientation.
///
/// Cells are the elements of the greatest dimension and vertices the nodes that they have, both in
/// file order; labels and data are on them (DMPlex makes its meshes from Gmsh files so, by
/// `DMPlexCreateGmsh`; what is merged or dropped is this library's own).
pub fn accept(alloc: Global, t: MshText) -> Result<Mesh, MeshFault>
    // The mesh is the one that the content stands for.
    ensures ok { IfOk result (λ mesh. accepted t ≡ Ok mesh) }
    // A fault is the first cause why there is none.
    ensures err { IfErr result (λ e. e ≢ MeshFault.NoMemory → accepted t ≡ Err e) }
{
    let Ok(places) = ElementPlaces::of(alloc, &t) else {
        return Err(MeshFault::NoMemory);
    };
    if let Some(fault) = fault_of(&places) {
        return Err(fault);
    }
    match mesh_of(alloc, &places) {
        Ok(mesh) => Ok(mesh),
        Err(NoMemory) => Err(MeshFault::NoMemory),
    }
}
