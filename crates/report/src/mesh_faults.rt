//! The lines of meshes that are refused.

ghost use Rattle.std.specs.Prelude.{◌≡◌, ◌≢◌, ◌++◌, OnOk};
ghost use Rattle.input_defs.specs.Refused.{what_text, msh_text, mesh_text, msh_refused, mesh_refused, twist_refused};
ghost use Rattle.report.specs.Refusals.{IsFaceKey};

use crate::line::{append_numbered, append_on_line, append_pair, append_two, append_wrong};
use input_defs::{MeshFault, MshFault, What};
use plex_base::{NoMemory, PointKey};

fn too_many(what: What) -> &'static [u8]
    ensures { result.now ≡ what_text what }
{
    match what {
        What::Nodes => b"too many nodes",
        What::Elements => b"too many elements",
        What::Names => b"too many names",
        What::Fields => b"too many fields",
    }
}

/// What stands after `refused: mesh` of a file with a fault.
#[tactic(auto, unfolding(input_defs::specs::Refused::msh_text), using(std::proofs::Common::append_assoc))]
fn append_msh_fault(to: &mut Vec<u8>, fault: MshFault) -> Result<(), NoMemory>
    requires { fault ≢ MshFault.NoMemory }
    ensures { OnOk result (to.new.items ≡ to.old.items ++ msh_text fault) }
{
    match fault {
        MshFault::NotMsh { line } => append_on_line(to, line, b"not msh"),
        MshFault::Version { line } => append_on_line(to, line, b"version"),
        MshFault::Binary { line } => append_on_line(to, line, b"binary"),
        MshFault::Header { line } => append_on_line(to, line, b"header"),
        MshFault::BadNumber { line } => append_on_line(to, line, b"bad number"),
        MshFault::BadCount { line } => append_on_line(to, line, b"bad count"),
        MshFault::BadName { line } => append_on_line(to, line, b"bad name"),
        MshFault::Unclosed { line } => append_on_line(to, line, b"unclosed"),
        MshFault::RepeatedSection { line } => append_on_line(to, line, b"repeated section"),
        MshFault::MissingSection { line, nodes: true } => {
            append_on_line(to, line, b"missing section Nodes")
        }
        MshFault::MissingSection { line, nodes: false } => {
            append_on_line(to, line, b"missing section Elements")
        }
        MshFault::RepeatedNodeNumber { line, number } => {
            append_wrong(to, line, b"repeated node number", number)
        }
        MshFault::ElementType { line, kind } => append_wrong(to, line, b"element type", kind),
        MshFault::UnknownNode { line, number } => append_wrong(to, line, b"unknown node", number),
        MshFault::RepeatedNode { line, number } => append_wrong(to, line, b"repeated node", number),
        MshFault::Components { line, got } => append_wrong(to, line, b"components", got),
        MshFault::UnknownNumber { line, number } => {
            append_wrong(to, line, b"unknown number", number)
        }
        MshFault::OutOfRange { line } => append_on_line(to, line, b"out of range"),
        MshFault::TooMany { line, what } => append_on_line(to, line, too_many(what)),
        MshFault::NoMemory => unreachable!(),
    }
}

/// The line of a mesh file with a fault.
#[tactic(auto, using(std::proofs::Common::append_assoc))]
pub(crate) fn append_msh(line: &mut Vec<u8>, fault: MshFault) -> Result<(), NoMemory>
    requires { fault ≢ MshFault.NoMemory }
    ensures { OnOk result (line.new.items ≡ line.old.items ++ msh_refused fault) }
{
    line.extend_from_slice(b"refused: mesh ")?;
    append_msh_fault(line, fault)?;
    line.push(b'\n')?;
    Ok(())
}

/// What stands after `refused: mesh` of a file without a mesh.
#[tactic(auto, unfolding(input_defs::specs::Refused::mesh_text), using(std::proofs::Common::append_assoc))]
fn append_mesh_fault(to: &mut Vec<u8>, fault: MeshFault) -> Result<(), NoMemory>
    requires { fault ≢ MeshFault.NoMemory }
    ensures { OnOk result (to.new.items ≡ to.old.items ++ mesh_text fault) }
{
    match fault {
        MeshFault::NoCells { greatest } => append_numbered(to, b"no cells", u64::from(greatest)),
        MeshFault::TooManyCells => {
            to.extend_from_slice(b"too many cells")?;
            Ok(())
        }
        MeshFault::CellTwist { element, earlier } => {
            append_pair(to, b"cell twist", element, earlier)
        }
        MeshFault::NoMemory => unreachable!(),
    }
}

/// The line of a mesh file that stands for no mesh.
#[tactic(auto, using(std::proofs::Common::append_assoc))]
pub(crate) fn append_mesh(line: &mut Vec<u8>, fault: MeshFault) -> Result<(), NoMemory>
    requires { fault ≢ MeshFault.NoMemory }
    ensures { OnOk result (line.new.items ≡ line.old.items ++ mesh_refused fault) }
{
    line.extend_from_slice(b"refused: mesh ")?;
    append_mesh_fault(line, fault)?;
    line.push(b'\n')?;
    Ok(())
}

/// The line of a mesh with a face that its cell sees under no orientation.
#[tactic(auto, unfolding(input_defs::specs::Refused::twist_refused), using(std::proofs::Common::append_assoc))]
pub(crate) fn append_twist(line: &mut Vec<u8>, face: PointKey) -> Result<(), NoMemory>
    requires { IsFaceKey face.0 }
    ensures { OnOk result (line.new.items ≡ line.old.items ++ twist_refused face.0) }
{
    let (cell, place) = (face.cell(), face.place() - 1);
    append_two(line, b"refused: twist cell", cell, b" face", place)?;
    line.push(b'\n')?;
    Ok(())
}
