//! What is refused, and the line that says so.

ghost use Rattle.std.specs.Prelude.{◌≡◌, ◌++◌, OnOk, codes};
ghost use Rattle.report.specs.Delivery.{Delivers};
ghost use Rattle.report.specs.Refusals.{HasLine, refusal_line, refusal_status};

use crate::mesh_faults::{append_mesh, append_msh, append_twist};
use crate::plan_faults::append_plan;
use crate::writing::write_last;
use cause_defs::ReportFault;
use input_defs::{MeshFault, MshFault, PlanFault, Status};
use plex_base::{NoMemory, PointKey};
use shelf_io::Sink;
use std::alloc::Global;

/// Why a run prints no mesh.
#[derive(Clone, Copy, Debug)]
pub enum Refusal<'a> {
    /// The words are not accepted.
    Words,
    /// The file of this name could not be read.
    Read(&'a str),
    /// The file of this name is longer than the limit.
    TooLong(&'a str),
    /// The plan has a fault, or does not fit the mesh.
    Plan(PlanFault),
    /// The mesh file has a fault.
    Msh(MshFault),
    /// The mesh file stands for no mesh.
    Mesh(MeshFault),
    /// This face, by its cell and its number there, is seen under no orientation.
    Twist(PointKey),
}

/// A text, a name and a text.
fn append_named(line: &mut Vec<u8>, before: &[u8], name: &str, after: &[u8]) -> Result<(), NoMemory>
    ensures { OnOk result (line.new.items ≡ line.old.items ++ (before.now ++ name.now ++ after.now)) }
{
    line.extend_from_slice(before)?;
    line.extend_from_slice(name.as_bytes())?;
    line.extend_from_slice(after)?;
    Ok(())
}

impl Refusal<'_> {
    /// How a run ends that is refused so.
    pub fn status(&self) -> Status
        ensures { result ≡ refusal_status self.now }
    {
        match self {
            Refusal::Words => Status::Words,
            Refusal::Read(_) => Status::ReadFault,
            Refusal::TooLong(_) => Status::TooLong,
            Refusal::Plan(_) => Status::Plan,
            Refusal::Msh(_) | Refusal::Mesh(_) | Refusal::Twist(_) => Status::Mesh,
        }
    }

    /// Its line.
    #[tactic(auto, unfolding(input_defs::specs::text_defs::Refusals::words_refused, input_defs::specs::text_defs::Refusals::read_refused, input_defs::specs::text_defs::Refusals::too_long_refused), using(std::proofs::Common::append_assoc))]
    fn append_to(&self, line: &mut Vec<u8>) -> Result<(), NoMemory>
        requires { HasLine self.now }
        ensures { OnOk result (line.new.items ≡ line.old.items ++ refusal_line self.now) }
    {
        match *self {
            Refusal::Words => append_named(line, b"refused: words", "", b"\n"),
            Refusal::Read(name) => append_named(line, b"refused: read ", name, b"\n"),
            Refusal::TooLong(name) => {
                append_named(line, b"refused: too long ", name, b" 268435457\n")
            }
            Refusal::Plan(fault) => append_plan(line, fault),
            Refusal::Msh(fault) => append_msh(line, fault),
            Refusal::Mesh(fault) => append_mesh(line, fault),
            Refusal::Twist(face) => append_twist(line, face),
        }
    }
}

/// Writes the line of a refusal, and flushes. The refusal is none for want of memory, and the key of a
/// twist is that of a face.
///
/// Fails where the sink does, or for want of memory. Then nothing, or a part of the line from its
/// beginning, is added, and nothing is flushed.
pub fn write_refusal<W: Sink>(
    alloc: Global,
    refusal: &Refusal<'_>,
    out: &mut W,
) -> Result<(), ReportFault>
    requires { HasLine refusal.now }
    ensures { Delivers W.written W.flushed W.faults W.counts_failures_alone result out.old out.new (refusal_line refusal.now) }
{
    let mut line = Vec::new(alloc);
    refusal.append_to(&mut line)?;
    write_last(out, &line)
}
