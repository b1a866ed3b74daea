//! The physical names of the mesh.

ghost use Rattle.std.specs.Prelude.{◌≡◌, [], OnOk};

use msh_reader::MshText;
use plex_base::NoMemory;
use plex_mesh::MeshBuilder;

/// Adds the physical names of a file to a mesh that has none, in file order.
pub(crate) fn add_names(builder: &mut MeshBuilder, text: &MshText) -> Result<(), NoMemory>
    requires { builder.old.names ≡ [] }
    ensures { OnOk result (builder.new ≡ record builder.old { names = text.now.names }) }
{
    for i in 0..text.names() {
        let (dim, number, name) = text.name(i);
        builder.add_name(dim, number, name)?;
    }
    Ok(())
}
