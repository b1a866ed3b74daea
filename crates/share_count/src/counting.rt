//! What is counted.
ghost use Rattle.std.specs.Prelude.{IfOk};
ghost use Rattle.share_count.specs.Met.{IsOfMesh};

use crate::trouble::Trouble;
use dist_seed::seed;
use interp_share::{Shared, share};
use orient_iface::orient;
use plan_reader::{Plan, read_plan};
use plex_mesh::Mesh;
use sf_fabric::Fabric;
use std::alloc::Global;
use std::thread::Threads;

/// The line `cells N` of a mesh.
pub(crate) fn made_text(alloc: Global, mesh: &Mesh) -> Result<String, Trouble> {
    Ok(format!(in alloc; "cells {}\n", mesh.cells())?)
}

/// The plan that gives the cells to so many ranks in blocks.
fn plan_of(alloc: Global, ranks: u32) -> Result<Plan, Trouble> {
    let text = format!(in alloc; "ranks {ranks}\npart block\n")?;
    if text.len() > 100 {
        return Err(Trouble::Words);
    }
    read_plan(alloc, text.as_bytes()).map_err(|_| Trouble::Words)
}

/// What so many ranks have of a mesh once they have met.
fn met<R: Threads + Sync, F: Fabric>(
    rt: &R,
    alloc: Global,
    mesh: &Mesh,
    ranks: u32,
    fabric: &mut F,
) -> Result<Shared, Trouble>
    ensures { IfOk result (λ s. IsOfMesh s mesh.now) }
{
    let plan = plan_of(alloc, ranks)?;
    plan.fits(mesh.cells()).map_err(|_| Trouble::Words)?;
    let scatter = seed(rt, alloc, mesh, &plan, fabric)?;
    Ok(share(rt, alloc, scatter, fabric)?)
}

/// The line `points N leaves N` of a mesh over so many ranks.
pub(crate) fn shared_text<R: Threads + Sync, F: Fabric>(
    rt: &R,
    alloc: Global,
    mesh: &Mesh,
    ranks: u32,
    fabric: &mut F,
) -> Result<String, Trouble> {
    let shared = met(rt, alloc, mesh, ranks, fabric)?;
    counts_text(alloc, &shared)
}

/// The line `points N` of the diagram of a mesh, whose whole distribution is made on one rank.
pub(crate) fn drawn_text<R: Threads + Sync, F: Fabric>(
    rt: &R,
    alloc: Global,
    mesh: &Mesh,
    fabric: &mut F,
) -> Result<String, Trouble> {
    let shared = met(rt, alloc, mesh, 1, fabric)?;
    let (dist, _) = orient(rt, alloc, shared, fabric)?;
    // There is a rank: the proof takes this from the call.
    let _ranks = dist.ranks();
    Ok(format!(in alloc; "points {}\n", dist.local(0).plex().chart())?)
}

/// How many points and leaves all ranks have.
fn counts_text(alloc: Global, shared: &Shared) -> Result<String, Trouble> {
    let (mut points, mut leaves) = (0u64, 0u64);
    for rank in 0..shared.ranks() {
        points = points.wrapping_add(u64::from(shared.points(rank)));
        leaves = leaves.wrapping_add(u64::from(shared.forest().leaf_count(rank)));
    }
    Ok(format!(in alloc; "points {points} leaves {leaves}\n")?)
}
