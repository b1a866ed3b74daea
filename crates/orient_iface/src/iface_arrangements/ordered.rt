//! Vertices in the orders that ranks are told.

ghost use Rattle.std.specs.Prelude.{◌≡◌, ◌<◌, length, map, IfOk};
ghost use Rattle.plain_lists.specs.Vectors.{lists_of};
ghost use Rattle.rank_chart_laws.specs.key_laws.Words.{part, IsLaidOut};
ghost use Rattle.rank_cones.specs.arrangement_laws.Told.{all_ordered, ordered_by};

use crate::iface_arrangements::offers::first_face;
use crate::iface_arrangements::orders::{filled, in_order};
use dist_state::shared_state::Shared;
use plex_base::NoMemory;
use std::alloc::Global;

/// For each rank the vertices of its faces and then of its edges in these orders.
pub(crate) fn all_ordered(
    alloc: Global,
    shared: &Shared,
    orders: &[Vec<u64>],
) -> Result<Vec<Vec<[u32; 4]>>, NoMemory>
    requires laid_out { IsLaidOut shared.now }
    requires shape { map length (lists_of orders.now) ≡ shared.now.forest.roots }
    ensures { IfOk result (λ all. lists_of all.items ≡ all_ordered shared.now (lists_of orders.now)) }
{
    let mut all = Vec::with_capacity(alloc, shared.ranks() as usize)?;
    for rank in 0..shared.ranks() {
        all.push(ordered_by(alloc, shared, rank, &orders[rank as usize])?)?;
    }
    Ok(all)
}

/// The vertices of a rank's faces and then of its edges in these orders.
fn ordered_by(
    alloc: Global,
    shared: &Shared,
    rank: u32,
    orders: &[u64],
) -> Result<Vec<[u32; 4]>, NoMemory>
    requires laid_out { IsLaidOut shared.now }
    requires rank { rank < length shared.now.parts }
    requires shape { length orders.now ≡ length (part shared.now rank).sets }
    ensures { IfOk result (λ own. own.items ≡ ordered_by (part shared.now rank) orders.now) }
{
    // All points have numbers of 32 bits: the proof takes this from the call.
    let _points = shared.points(rank);
    let first = first_face(shared, rank);
    let count = shared.local(rank).faces() + shared.local(rank).edges();
    let mut own = Vec::with_capacity(alloc, count as usize)?;
    for k in 0..count {
        let place = first + k;
        own.push(in_order(filled(shared.set(rank, place)), orders[place as usize]))?;
    }
    Ok(own)
}
