//! The diagram of a mesh.

ghost use Rattle.std.specs.Prelude.{[], IfOk};
ghost use Rattle.input_defs.specs.Plans.{plain_plan};
ghost use Rattle.input_defs.specs.States.{first_ranks};
ghost use Rattle.rank_defs.specs.Spread.{IsDist};

use crate::trouble::Trouble;
use dist_seed::seed;
use dist_state::Dist;
use interp_share::share;
use orient_iface::orient;
use plan_reader::Plan;
use plex_mesh::Mesh;
use sf_threads::{NoGate, ThreadFabric};
use std::alloc::Global;
use std::thread::Threads;

/// The mesh on one rank, which has its whole diagram.
///
/// A mesh with a twisted face is refused.
pub(crate) fn on_one_rank<R: Threads + Sync>(
    rt: &R,
    alloc: Global,
    mesh: &Mesh,
) -> Result<Dist, Trouble>
    ensures { IfOk result (λ dist. IsDist dist mesh.now [] (first_ranks mesh.now plain_plan) 1 0) }
{
    let plan = Plan::plain(alloc)?;
    let mut fabric = ThreadFabric::new(rt, alloc, NoGate);
    let scatter = seed(rt, alloc, mesh, &plan, &mut fabric)?;
    let shared = share(rt, alloc, scatter, &mut fabric)?;
    let (dist, _) = orient(rt, alloc, shared, &mut fabric)?;
    Ok(dist)
}
