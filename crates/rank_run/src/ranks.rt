//! The same work for each rank.
ghost use Rattle.std.specs.Prelude.{◌≡◌, ℕ, ◌<◌, ◌≤◌, length, slice_index_or};
ghost use Rattle.std.specs.Thread.{IsSync};

use plex_base::MAX_RANKS;
use std::thread::{Threads, for_each_mut};

/// What is done with what one rank has.
pub trait RankWork<T>: Sync {
    /// The condition on a rank and its item.
    ghost accepts: { Self → ℕ → T → Type 0 };

    /// What becomes of a rank's item.
    ghost changes: { Self → ℕ → T → T → Type 0 };

    /// Does the work of one rank.
    fn step(&self, rank: u32, item: &mut T)
        requires { accepts self.now rank item.old }
        ensures { changes self.now rank item.old item.new };
}

/// Does the work of each rank on its item, the ranks in threads of their own where these can be started. Each
/// item ends as [`RankWork::step`] with its place leaves it, as in a plain loop over the ranks.
///
/// There are at most 64 items, each of which meets the condition of the work. Takes no memory.
pub fn each_rank<R: Threads + Sync, T: Send, C: RankWork<T>>(rt: &R, items: &mut [T], work: &C)
    requires few { length items.old ≤ MAX_RANKS }
    requires accepts { (rank : ℕ) (d : T) → rank < length items.old → C.accepts work.now rank (slice_index_or items.old rank d) }
    ensures count { length items.new ≡ length items.old }
    ensures changes { (rank : ℕ) (d : T) → rank < length items.old → C.changes work.now rank (slice_index_or items.old rank d) (slice_index_or items.new rank d) }
{
    let step = |rank: usize, item: &mut T|
        requires { IsSync C.row × (rank < MAX_RANKS) × C.accepts work.now rank item.now }
        ensures { C.changes work.entry.now rank item.entry.now item.exit.now }
    { work.step(rank as u32, item) };
    for_each_mut(rt, items, MAX_RANKS as usize, &step);
}
