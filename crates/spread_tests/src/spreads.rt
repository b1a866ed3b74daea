//! Meshes over ranks, step by step.
ghost use Rattle.std.specs.Prelude.{IfOk};
ghost use Rattle.spread_tests.specs.Some.{IsSomeScatter, IsSomeShared};

use dist_seed::{Scatter, seed};
use interp_share::{Shared, share};
use mesh_check::{Mesh, accept};
use msh_reader::read_msh;
use plan_reader::{Plan, read_plan};
use plex_base::NoMemory;
use sf_fabric::Fabric;
use sf_fabric::script::ScriptFabric;
use std::alloc::Global;
use std::test::Fail;
use std::thread::Threads;

/// The mesh of a file.
pub(crate) fn mesh_of(alloc: Global, file: &str) -> Result<Mesh, Fail> {
    if file.len() > 10000 {
        return Err(Fail::from("too long"));
    }
    let content = read_msh(alloc, file.as_bytes()).map_err(|_| Fail::from("the file is refused"))?;
    accept(alloc, content).map_err(|_| Fail::from("the mesh is refused"))
}

/// A plan.
pub(crate) fn plan_of(alloc: Global, text: &str) -> Result<Plan, Fail> {
    if text.len() > 1000 {
        return Err(Fail::from("too long"));
    }
    read_plan(alloc, text.as_bytes()).map_err(|_| Fail::from("the plan is refused"))
}

/// What ranks are given of a mesh by a plan, where there is memory.
pub(crate) fn scatter_over<R: Threads + Sync, F: Fabric>(
    rt: &R,
    alloc: Global,
    mesh: &Mesh,
    plan: &Plan,
    fabric: &mut F,
) -> Result<Result<Scatter, NoMemory>, Fail>
    ensures { IfOk result (λ found. IfOk found (λ s. IsSomeScatter s)) }
{
    plan.fits(mesh.cells())
        .map_err(|_| Fail::from("the plan does not fit"))?;
    Ok(seed(rt, alloc, mesh, plan, fabric))
}

/// The points of ranks, and which of them are the same, where there is memory.
pub fn shared_over<R: Threads + Sync, F: Fabric>(
    rt: &R,
    alloc: Global,
    file: &str,
    plan: &str,
    fabric: &mut F,
) -> Result<Result<Shared, NoMemory>, Fail>
    ensures { IfOk result (λ found. IfOk found (λ s. IsSomeShared s)) }
{
    let mesh = mesh_of(alloc, file)?;
    let plan = plan_of(alloc, plan)?;
    shared_of_mesh(rt, alloc, &mesh, &plan, fabric)
}

/// The same of a mesh that is there.
pub(crate) fn shared_of_mesh<R: Threads + Sync, F: Fabric>(
    rt: &R,
    alloc: Global,
    mesh: &Mesh,
    plan: &Plan,
    fabric: &mut F,
) -> Result<Result<Shared, NoMemory>, Fail>
    ensures { IfOk result (λ found. IfOk found (λ s. IsSomeShared s)) }
{
    match scatter_over(rt, alloc, mesh, plan, fabric)? {
        Ok(scatter) => Ok(share(rt, alloc, scatter, fabric)),
        Err(NoMemory) => Ok(Err(NoMemory)),
    }
}

/// The same where a script makes no picks.
pub fn shared_of<R: Threads + Sync>(
    rt: &R,
    alloc: Global,
    file: &str,
    plan: &str,
) -> Result<Shared, Fail>
    ensures { IfOk result (λ s. IsSomeShared s) }
{
    let mut fabric = ScriptFabric::new(Vec::new(alloc));
    let shared = shared_over(rt, alloc, file, plan, &mut fabric)?;
    shared.map_err(|_| Fail::from("no memory"))
}
