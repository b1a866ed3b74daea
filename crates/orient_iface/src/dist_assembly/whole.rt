//! The distributed mesh.

ghost use Rattle.std.specs.Prelude.{◌≡◌, ℕ, List, IfOk};
ghost use Rattle.plain_lists.specs.Vectors.{lists_of};
ghost use Rattle.mesh_defs.specs.Mesh.{Mesh};
ghost use Rattle.rank_defs.specs.Spread.{IsDist};
ghost use Rattle.orient_iface.specs.dist_assembly.Ranks.{AreDrawn, AreSomeDrawn};

use crate::dist_assembly::local::rank_meshes;
use crate::dist_assembly::moves::all_moves;
use crate::moved_points::moved_forest;
use dist_state::Dist;
use dist_state::shared_state::Shared;
use plex_base::NoMemory;
use rank_cones::rank_drawings::Drawing;
use std::alloc::Global;

/// The distributed mesh of what ranks share, after `DMPlexDistribute` without overlap: what each rank
/// holds in the order of its chart by keys, and the forest of shared points.
///
/// `drawings` has for each rank what it holds and its diagram, `keys` the key of each of its points in
/// the order of its own chart. No cell sees a face under no orientation. All are of one mesh. Fails only
/// for want of memory.
pub fn assemble(
    alloc: Global,
    shared: Shared,
    drawings: Vec<Drawing>,
    keys: Vec<Vec<u64>>,
) -> Result<Dist, NoMemory>
    requires { AreSomeDrawn shared drawings.items (lists_of keys.items) }

    // Of every mesh and assignment for which the points stand.
    ensures { IfOk result (λ dist. (m : Mesh) (dofs : List (List ℕ)) (a : List ℕ) (n : ℕ) → AreDrawn shared drawings.items (lists_of keys.items) m dofs a n → IsDist dist m dofs a n 0) }
{
    let forest = shared.forest();
    // What is kept of every forest: the proof takes this from the call.
    let _ranks = forest.ranks();
    let moves = all_moves(alloc, &shared, &drawings)?;
    let points = moved_forest(alloc, forest, &moves)?;
    let locals = rank_meshes(alloc, &shared, drawings, &keys, &moves)?;
    Ok(Dist::of(shared.whole(), 0, shared.sections(), points, locals))
}
