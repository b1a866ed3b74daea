//! What all ranks draw, side by side.

ghost use Rattle.std.specs.Prelude.{ℕ, List, IfOk};
ghost use Rattle.plain_lists.specs.Vectors.{lists_of};
ghost use Rattle.mesh_defs.specs.Mesh.{Mesh};
ghost use Rattle.rank_cones.specs.rank_drawings.Told.{AreTold, AreOfSomeMesh, AreDrawings};

use crate::rank_drawings::desks::{Drawer, desks_with, drawings_on};
use crate::rank_drawings::dimension::dim_of_mesh;
use crate::rank_drawings::drawing::Drawing;
use dist_state::shared_state::Shared;
use plex_base::NoMemory;
use rank_run::each_rank;
use std::alloc::Global;
use std::thread::Threads;

/// What each rank holds by key and the diagram of its points, or its own twist: the second half of
/// `DMPlexInterpolate` on a distributed `DMPlex`, the ranks in threads of their own where these can be
/// started.
///
/// `keys` has for each rank the key of each of its points, in the order of its own chart, and
/// `arrangements` the vertices of each of its faces and then edges in the order of the cell of the key,
/// with 4294967295 behind the last one. All three are of one mesh. Each rank gives the memory of its
/// arrangements back before it draws. `NoMemory` comes for want of memory alone.
pub fn draw_all<R: Threads + Sync>(
    rt: &R,
    alloc: Global,
    shared: &Shared,
    keys: &[Vec<u64>],
    arrangements: Vec<Vec<[u32; 4]>>,
) -> Result<Vec<Drawing>, NoMemory>
    requires { AreOfSomeMesh shared.now (lists_of keys.now) (lists_of arrangements.items) }

    // Of every mesh and assignment for which the points stand.
    ensures { IfOk result (λ drawings. (m : Mesh) (dofs : List (List ℕ)) (a : List ℕ) (n : ℕ) → AreTold shared.now (lists_of keys.now) (lists_of arrangements.items) m dofs a n → AreDrawings m a n drawings.items) }
{
    let mut desks = desks_with(alloc, arrangements)?;
    let drawer = Drawer {
        alloc,
        dim: dim_of_mesh(shared),
        shared,
        keys,
    };
    each_rank(rt, &mut desks, &drawer);
    drawings_on(alloc, desks)
}
