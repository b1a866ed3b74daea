//! From a mesh and a plan to counts.

ghost use Rattle.std.specs.Prelude.{◌≡◌, ℕ, List, None, length, IfOk, IfErr, OnOk};
ghost use Rattle.plain_lists.specs.Vectors.{lists_of};
ghost use Rattle.mesh_defs.specs.Mesh.{Mesh as WholeMesh};
ghost use Rattle.mesh_defs.specs.Diagram.{twist_key};
ghost use Rattle.sf_defs.specs.Rounds.{Round as Record};
ghost use Rattle.sf_fabric.specs.Kept.{kept_with};
ghost use Rattle.input_defs.specs.Plans.{misfit};
ghost use Rattle.input_defs.specs.States.{first_ranks};
ghost use Rattle.rank_defs.specs.Home.{IsHomeRound};
ghost use Rattle.cells_at_vertices.specs.Counts.{vertex_counts, IsTwistOf};
ghost use Rattle.cells_at_vertices.specs.Own.{AreOwnCounts, IsOf, IsOfSome};

use crate::closures::count_cells;
use crate::counts::VertexCounts;
use dist_seed::seed;
use dist_state::Dist;
use interp_share::share;
use orient_iface::{OrientFault, orient};
use plan_reader::Plan;
use plex_base::NoMemory;
use plex_mesh::Mesh;
use sf_fabric::Fabric;
use sf_ops::sums::sum_copies;
use std::alloc::Global;
use std::thread::Threads;

/// For each rank its vertices, and how many cells of the whole mesh have each of them.
///
/// The mesh is spread over the ranks by the plan's first part. Each rank counts for each of its points how
/// many of its own cells have it, and the counts of the copies of a point are added up over the fabric.
///
/// The plan fits the mesh. Twist where a cell sees a face under no orientation, with the least key of such a
/// face; `NoMemory` for want of memory. The home round of the distribution is kept, no other round is.
pub fn cells_at_vertices<R: Threads + Sync, F: Fabric>(
    rt: &R,
    alloc: Global,
    mesh: &Mesh,
    plan: &Plan,
    fabric: &mut F,
) -> Result<VertexCounts, OrientFault>
    requires fits { misfit plan.now.plan (length mesh.now.cells) ≡ None }
    ensures counts { IfOk result (λ counts. counts ≡ vertex_counts mesh.now (first_ranks mesh.now plan.now.plan) plan.now.plan.ranks) }
    ensures accepted { OnOk result (twist_key mesh.now ≡ None) }
    ensures kept { OnOk result ((r : Record) × IsHomeRound mesh.now (first_ranks mesh.now plan.now.plan) plan.now.plan.ranks r × (F.kept fabric.new ≡ kept_with (F.kept fabric.old) r)) }
    ensures fault { IfErr result (λ fault. IsTwistOf mesh.now fault) }
{
    let scatter = seed(rt, alloc, mesh, plan, fabric)?;
    let shared = share(rt, alloc, scatter, fabric)?;
    let (dist, _home) = orient(rt, alloc, shared, fabric)?;
    Ok(whole_counts(alloc, &dist, fabric)?)
}

/// The same of a mesh that is spread over ranks without overlap: each rank counts by its own cells, and the
/// counts are added up over the copies of each point.
fn whole_counts<F: Fabric>(
    alloc: Global,
    dist: &Dist,
    fabric: &mut F,
) -> Result<VertexCounts, NoMemory>
    requires { IsOfSome dist.now }
    ensures counts { IfOk result (λ counts. (m : WholeMesh) (a : List ℕ) (n : ℕ) → IsOf dist.now m a n → counts ≡ vertex_counts m a n) }
    ensures kept { F.kept fabric.new ≡ F.kept fabric.old }
{
    let own = own_counts(alloc, dist)?;
    let whole = sum_copies(alloc, dist.points(), &own, fabric)?;
    VertexCounts::of(alloc, dist, &whole)
}

/// For each rank how many of its own cells have each of its points.
fn own_counts(alloc: Global, dist: &Dist) -> Result<Vec<Vec<u64>>, NoMemory>
    ensures { IfOk result (λ counts. AreOwnCounts dist.now.locals (length dist.now.locals) (lists_of counts.items)) }
{
    let mut counts = Vec::with_capacity(alloc, dist.ranks() as usize)?;
    for rank in 0..dist.ranks() {
        counts.push(count_cells(alloc, dist.local(rank).plex())?)?;
    }
    Ok(counts)
}
