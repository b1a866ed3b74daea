//! From cells to points, and to points that are the same.
ghost use Rattle.std.specs.Prelude.{◌≡◌, ℕ, List, IfOk};
ghost use Rattle.mesh_defs.specs.Mesh.{Mesh};
ghost use Rattle.rank_defs.specs.Spread.{IsScatter, IsShared};

use crate::joining::all_points;
use crate::listing::list_all;
use crate::locals::SeenLocals;
use crate::part_fields::all_fields;
use crate::point_meeting::mesh_forest;
use crate::rank_points::see_all;
use dist_state::shared_state::{Scatter, Shared};
use plex_base::NoMemory;
use sf_fabric::Fabric;
use std::alloc::Global;
use std::thread::Threads;

/// For more fields than these memory can't be had.
const MOST_FIELDS: u64 = 4_294_967_295;

/// What ranks have once they have met: each rank's points as sets of vertices, with labels and words, and
/// the forest of shared points, which ranks find at the owner of a vertex: the first half of
/// `DMPlexInterpolate` on a distributed `DMPlex`, with its point SF.
///
/// `s` stands for some mesh, counts of words and assignment. The ranks see their points, and list the
/// vertices of these, side by side. No round is kept. `NoMemory` comes for want of memory, and where data
/// sections and counts of words are 2^32 or more together, for which memory can't be had; `s` is then gone.
pub fn share<R: Threads + Sync, F: Fabric>(
    rt: &R,
    alloc: Global,
    s: Scatter,
    fabric: &mut F,
) -> Result<Shared, NoMemory>
    requires { (m : Mesh) × (dofs : List (List ℕ)) × (a : List ℕ) × (n : ℕ) × IsScatter s m dofs a n }
    ensures shared { (m : Mesh) (dofs : List (List ℕ)) (a : List ℕ) (n : ℕ) → IsScatter s m dofs a n → IfOk result (λ shared. IsShared shared m dofs a n) }
    ensures kept { F.kept fabric.new ≡ F.kept fabric.old }
{
    if u64::from(s.sections()) + u64::from(s.dofs()) > MOST_FIELDS {
        return Err(NoMemory);
    }
    let seen = see_all(rt, alloc, &s)?;
    let forest = mesh_forest(alloc, &s, &seen, fabric)?;
    let fields = all_fields(alloc, &s, &SeenLocals { seen: &seen }, &forest, fabric)?;
    let sets = list_all(rt, alloc, &s, &seen)?;
    let points = all_points(alloc, &s, seen, sets, fields)?;
    Ok(Shared::of(s, points, forest))
}
