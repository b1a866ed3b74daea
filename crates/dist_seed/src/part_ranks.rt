//! The rank of each cell under the first part of a plan.

ghost use Rattle.std.specs.Prelude.{◌≡◌, None, length, IfOk};
ghost use Rattle.input_defs.specs.Plans.{misfit};
ghost use Rattle.input_defs.specs.States.{first_ranks};
ghost use Rattle.rank_defs.specs.Ranks.{IsRightAssignment};

use plan_reader::Plan;
use plex_base::NoMemory;
use plex_mesh::Mesh;
use std::alloc::Global;

/// The rank that the first part of a plan gives to each cell of a mesh, which the plan fits.
///
/// Fails only for want of memory.
pub fn first_ranks(alloc: Global, mesh: &Mesh, plan: &Plan) -> Result<Vec<u32>, NoMemory>
    requires { misfit plan.now.plan (length mesh.now.cells) ≡ None }
    ensures ranks { IfOk result (λ ranks. ranks.items ≡ first_ranks mesh.now plan.now.plan) }
    ensures right { IfOk result (λ ranks. IsRightAssignment mesh.now plan.now.plan.ranks ranks.items) }
{
    // Every plan begins with a part, and has 1 to 64 ranks: the proof takes this from the call.
    let _ranks = plan.ranks();
    let mut ranks = Vec::with_capacity(alloc, mesh.cells() as usize)?;
    for c in 0..mesh.cells() {
        ranks.push(plan.rank_of(0, c, mesh.cells()))?;
    }
    Ok(ranks)
}
