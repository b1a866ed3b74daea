//! The vertices of the points of all ranks, listed side by side.
ghost use Rattle.std.specs.Prelude.{◌≡◌, ◌<◌, ℕ, List, length, IfOk, IfSome};
ghost use Rattle.mesh_defs.specs.Mesh.{Mesh};
ghost use Rattle.rank_defs.specs.Spread.{IsScatter};
ghost use Rattle.local_points.specs.Cells.{AreFit};
ghost use Rattle.dist_state.specs.scatter_state.Whole.{part_at};
ghost use Rattle.interp_share.specs.rank_points.Seen.{all_seen, part_sets};
ghost use Rattle.interp_share.specs.Known.{AreListed};

use crate::rank_points::{SeenPoints, point_sets};
use dist_state::shared_state::Scatter;
use plex_base::NoMemory;
use rank_run::{RankWork, each_rank};
use sf_fabric::FlatLists;
use std::alloc::Global;
use std::thread::Threads;

/// The work of each rank: to list the vertices of its points. Its item is these lists, and nothing for want
/// of memory.
#[derive(Drop)]
struct Listing<'a> {
    alloc: Global,
    scatter: &'a Scatter,
    seen: &'a [SeenPoints],
}

impl<'a> RankWork<Option<FlatLists<u32>>> for Listing<'a> {
    ghost accepts = { λ work rank sets. (rank < length work.scatter.now.parts) × (work.seen.now ≡ all_seen work.scatter.now.parts) × AreFit (part_at work.scatter.now.parts rank).cells };

    ghost changes = { λ work rank before after. IfSome after (λ sets. sets ≡ part_sets (part_at work.scatter.now.parts rank)) };

    fn step(&self, rank: u32, sets: &mut Option<FlatLists<u32>>) {
        let seen = &self.seen[rank as usize];
        *sets = point_sets(self.alloc, self.scatter.part(rank), seen).ok();
    }
}

/// The vertices of each rank's points, rank by rank, the ranks in threads of their own where these can be
/// started; nothing for a rank that wants memory.
///
/// `NoMemory` comes for want of memory alone.
pub(crate) fn list_all<R: Threads + Sync>(
    rt: &R,
    alloc: Global,
    scatter: &Scatter,
    seen: &[SeenPoints],
) -> Result<Vec<Option<FlatLists<u32>>>, NoMemory>
    requires some { (m : Mesh) × (dofs : List (List ℕ)) × (a : List ℕ) × (n : ℕ) × IsScatter scatter.now m dofs a n }
    requires seen { seen.now ≡ all_seen scatter.now.parts }
    ensures { IfOk result (λ sets. AreListed scatter.now sets.items) }
{
    let mut sets = empty_slots(alloc, scatter.ranks())?;
    let listing = Listing {
        alloc,
        scatter,
        seen,
    };
    each_rank(rt, &mut sets, &listing);
    Ok(sets)
}

/// A slot for each rank, without anything in it.
fn empty_slots(alloc: Global, ranks: u32) -> Result<Vec<Option<FlatLists<u32>>>, NoMemory>
    ensures { IfOk result (λ slots. length slots.items ≡ ranks) }
{
    let mut slots = Vec::with_capacity(alloc, ranks as usize)?;
    for _ in 0..ranks {
        slots.push(None)?;
    }
    Ok(slots)
}
