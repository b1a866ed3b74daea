//! What all ranks see, side by side.
ghost use Rattle.std.specs.Prelude.{◌≡◌, ◌<◌, length, map, Some, IfOk, IfSome};
ghost use Rattle.std.specs.List.{AllByRecursion};
ghost use Rattle.std.specs.Thread.{IsSync};
ghost use Rattle.rank_defs.specs.Spread.{ScatterPart};
ghost use Rattle.local_points.specs.Cells.{AreFit};
ghost use Rattle.dist_state.specs.scatter_state.Whole.{part_at};
ghost use Rattle.interp_share.specs.rank_points.Seen.{all_seen, seen_of};

use crate::rank_points::seen::{SeenPoints, see_points};
use dist_state::scatter_state::Scatter;
use plex_base::NoMemory;
use rank_run::{RankWork, each_rank};
use std::alloc::Global;
use std::thread::Threads;

/// The work of each rank: to see the points of its cells. Its item is what it sees, and nothing for want
/// of memory.
#[derive(Drop)]
struct Seeing<'a, R> {
    rt: &'a R,
    alloc: Global,
    scatter: &'a Scatter,
}

impl<'a, R: Threads + Sync> RankWork<Option<SeenPoints>> for Seeing<'a, R> {
    ghost accepts = { λ work rank seen. IsSync R.row × (rank < length work.scatter.now.parts) × AreFit (part_at work.scatter.now.parts rank).cells };

    ghost changes = { λ work rank before after. IfSome after (λ seen. seen ≡ seen_of (part_at work.scatter.now.parts rank).cells) };

    fn step(&self, rank: u32, seen: &mut Option<SeenPoints>) {
        *seen = see_points(self.rt, self.alloc, self.scatter.part(rank)).ok();
    }
}

/// What each rank sees of its cells, rank by rank, the ranks in threads of their own where these can be
/// started.
///
/// The cells of each rank are at most 250,000 polygons and solids of vertices below 2^32 - 1. `NoMemory`
/// comes for want of memory alone.
pub fn see_all<R: Threads + Sync>(
    rt: &R,
    alloc: Global,
    scatter: &Scatter,
) -> Result<Vec<SeenPoints>, NoMemory>
    requires { AllByRecursion (λ (part : ScatterPart). AreFit part.cells) scatter.now.parts }
    ensures { IfOk result (λ seen. seen.items ≡ all_seen scatter.now.parts) }
{
    let mut slots = empty_slots(alloc, scatter.ranks())?;
    each_rank(rt, &mut slots, &Seeing { rt, alloc, scatter });
    filled_slots(alloc, slots)
}

/// A slot for each rank, without anything in it.
fn empty_slots(alloc: Global, ranks: u32) -> Result<Vec<Option<SeenPoints>>, NoMemory>
    ensures { IfOk result (λ slots. length slots.items ≡ ranks) }
{
    let mut slots = Vec::with_capacity(alloc, ranks as usize)?;
    for _ in 0..ranks {
        slots.push(None)?;
    }
    Ok(slots)
}

/// What is in the slots, where something is in each of them.
fn filled_slots(alloc: Global, slots: Vec<Option<SeenPoints>>) -> Result<Vec<SeenPoints>, NoMemory>
    ensures { IfOk result (λ seen. slots.items ≡ map Some seen.items) }
{
    let mut all = Vec::with_capacity(alloc, slots.len())?;
    for slot in slots {
        all.push(slot.ok_or(NoMemory)?)?;
    }
    Ok(all)
}
