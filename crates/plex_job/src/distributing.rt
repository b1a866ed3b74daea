//! The mesh of a task over the ranks of its plan, and its home round.
ghost use Rattle.std.specs.Prelude.{◌≡◌, IfOk, IfErr};
ghost use Rattle.rank_defs.specs.Spread.{IsShared};
ghost use Rattle.input_defs.specs.States.{first_ranks};
ghost use Rattle.plan_reader.specs.Drafts.{counts_of};
ghost use Rattle.plex_job.specs.job_task.Reading.{task_view, IsBuilt};
ghost use Rattle.plex_job.specs.Homes.{KeepsHome, IsSpreadFault};
ghost use Rattle.plex_job.specs.Spreading.{IsDistOf, IsSpread};

use crate::job_task::Task;
use crate::spreading::Spreading;
use crate::value_words::words_fit;
use dist_number::dist_trace::first_trace;
use dist_seed::seed;
use dist_state::Dist;
use dist_state::shared_state::Shared;
use interp_share::share;
use orient_iface::{OrientFault, orient};
use plex_base::NoMemory;
use sf_fabric::{Fabric, Round};
use std::alloc::Global;
use std::thread::Threads;

/// What the ranks of the plan's first part have of the mesh once they have met.
fn met<R: Threads + Sync, F: Fabric>(
    rt: &R,
    alloc: Global,
    task: &Task,
    fabric: &mut F,
) -> Result<Shared, NoMemory>
    requires { IsBuilt (task_view task.now) }
    ensures shared { IfOk result (λ s. IsShared s task.now.mesh (counts_of task.now.plan.plan.dofs) (first_ranks task.now.mesh task.now.plan.plan) task.now.plan.plan.ranks) }
    ensures kept { F.kept fabric.new ≡ F.kept fabric.old }
{
    let scatter = seed(rt, alloc, &task.mesh, &task.plan, fabric)?;
    share(rt, alloc, scatter, fabric)
}

/// The mesh of a task over the ranks of its plan's first part, and the home round.
///
/// A mesh with a twist is refused after its home round.
fn distribute<R: Threads + Sync, F: Fabric>(
    rt: &R,
    alloc: Global,
    task: &Task,
    fabric: &mut F,
) -> Result<(Dist, Round), OrientFault>
    requires { IsBuilt (task_view task.now) }
    ensures dist { IfOk result (λ r. IsDistOf (task_view task.now) r.0) }
    ensures home { IfOk result (λ r. KeepsHome F.kept (task_view task.now) fabric.old fabric.new r.1) }
    ensures fault { IfErr result (λ fault. IsSpreadFault F.kept (task_view task.now) fabric.old fabric.new fault) }
{
    words_fit(&task.mesh);
    let shared = met(rt, alloc, task, fabric)?;
    orient(rt, alloc, shared, fabric)
}

/// Spreads the mesh of a task over the ranks of its plan, with where each rank has its points, and
/// runs the home round.
///
/// A mesh with a twist is refused after its home round.
pub(crate) fn spread_mesh<'a, R: Threads + Sync, F: Fabric>(
    rt: &R,
    alloc: Global,
    task: &'a Task,
    fabric: &mut F,
) -> Result<(Spreading<'a>, Round), OrientFault>
    requires { IsBuilt (task_view task.now) }
    ensures spread { IfOk result (λ r. (r.0.task.now ≡ task.now) × IsSpread r.0) }
    ensures home { IfOk result (λ r. KeepsHome F.kept (task_view r.0.task.now) fabric.old fabric.new r.1) }
    ensures fault { IfErr result (λ fault. IsSpreadFault F.kept (task_view task.now) fabric.old fabric.new fault) }
{
    let (dist, home) = distribute(rt, alloc, task, fabric)?;
    let trace = first_trace(alloc, &dist)?;
    Ok((Spreading { task, dist, trace }, home))
}
