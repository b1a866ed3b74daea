//! The data sections of a mesh and the fields of a plan, without their values.
ghost use Rattle.std.specs.Prelude.{◌≡◌, ◌<◌, ◌^◌, length, map, IfOk};
ghost use Rattle.mesh_defs.specs.Mesh.{Section};
ghost use Rattle.plan_reader.specs.Drafts.{counts_of};

use plan_reader::Plan;
use plex_base::{NoMemory, Place};
use plex_mesh::Mesh;
use std::alloc::Global;

/// So many data sections no mesh has: memory for them can't be had.
const TOO_MANY_SECTIONS: usize = 4_294_967_296;

/// What each data section is on, and how many components it has.
pub(crate) fn sections_of(alloc: Global, mesh: &Mesh) -> Result<Vec<(Place, u32)>, NoMemory>
    ensures sections { IfOk result (λ sections. sections.items ≡ map (λ (f : Section). (f.on, f.comps)) mesh.now.fields) }
    ensures few { IfOk result (λ sections. length sections.items < 2 ^ 32) }
{
    if mesh.fields() >= TOO_MANY_SECTIONS {
        return Err(NoMemory);
    }
    let mut sections = Vec::with_capacity(alloc, mesh.fields())?;
    for i in 0..mesh.fields() {
        let (on, rows) = mesh.field(i);
        sections.push((on, rows.comps()))?;
    }
    Ok(sections)
}

/// How many words each field of a plan has by dimension.
pub(crate) fn dofs_of(alloc: Global, plan: &Plan) -> Result<Vec<[u32; 4]>, NoMemory>
    ensures { IfOk result (λ dofs. dofs.items ≡ counts_of plan.now.plan.dofs) }
{
    let mut dofs = Vec::with_capacity(alloc, plan.dofs())?;
    for i in 0..plan.dofs() {
        dofs.push(plan.dof(i).1)?;
    }
    Ok(dofs)
}
