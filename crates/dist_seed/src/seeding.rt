//! The first step of a distribution.
ghost use Rattle.std.specs.Prelude.{◌≡◌, None, length, IfOk};
ghost use Rattle.input_defs.specs.Plans.{misfit};
ghost use Rattle.input_defs.specs.States.{first_ranks};
ghost use Rattle.rank_defs.specs.Spread.{IsScatter};
ghost use Rattle.plan_reader.specs.Drafts.{counts_of};

use crate::part_ranks::first_ranks;
use crate::parts::{Sources, held_cells, parts_of};
use crate::section_rows::tables_of;
use crate::sections::{dofs_of, sections_of};
use crate::vertex_owners::vertex_owners;
use dist_state::scatter_state::Scatter;
use plan_reader::Plan;
use plex_base::NoMemory;
use plex_mesh::Mesh;
use sf_fabric::Fabric;
use std::alloc::Global;
use std::thread::Threads;

/// Gives each rank the cells that the plan's first part assigns to it, and what belongs to them: their
/// vertices with coordinates and owners, the marks on their points, and the rows of data of cells and
/// vertices. After the first half of `DMPlexDistribute` of PETSc. Owners are found by fetch-and-Min over
/// the fabric. What the cells of a rank see is listed in threads of their own where these can be started.
///
/// The plan fits the mesh. No round is kept. Fails only for want of memory.
pub fn seed<R: Threads + Sync, F: Fabric>(
    rt: &R,
    alloc: Global,
    mesh: &Mesh,
    plan: &Plan,
    fabric: &mut F,
) -> Result<Scatter, NoMemory>
    requires { misfit plan.now.plan (length mesh.now.cells) ≡ None }
    ensures scatter { IfOk result (λ s. IsScatter s mesh.now (counts_of plan.now.plan.dofs) (first_ranks mesh.now plan.now.plan) plan.now.plan.ranks) }
    ensures kept { F.kept fabric.new ≡ F.kept fabric.old }
{
    // The mesh and the fields are right: the proof takes this from the calls.
    let (_dim, _dofs) = (mesh.dim(), plan.dofs());
    let ranks = first_ranks(alloc, mesh, plan)?;
    let held = held_cells(alloc, mesh, &ranks, plan.ranks())?;
    let owners = vertex_owners(alloc, mesh, &ranks, &held, fabric)?;
    let tables = tables_of(alloc, mesh)?;
    let from = Sources {
        mesh,
        ranks: &ranks,
        owners: &owners,
        tables: &tables,
    };
    let parts = parts_of(rt, alloc, &from, held)?;
    let sections = sections_of(alloc, mesh)?;
    let dofs = dofs_of(alloc, plan)?;
    Ok(Scatter::of(mesh.cells(), sections, dofs, parts))
}
