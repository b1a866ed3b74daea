//! Numbers of owned points.
ghost use Rattle.std.specs.Prelude.{◌≡◌, ◌+◌, ◌^◌, ◌<◌, ◌≤◌, length, slice_index, IfOk};
ghost use Rattle.plain_lists.specs.Vectors.{lists_of};
ghost use Rattle.dist_number.specs.Asked.{own_count};
ghost use Rattle.dist_number.specs.Places.{own_numbers, numbers_at_owners, HaveRoom};

use crate::bases::Bases;
use dist_state::{Dist, RankMesh};
use plex_base::NoMemory;
use std::alloc::Global;

/// The numbers of the points that a rank owns, from `base` on in local order, and 0 for its ghosts.
#[tactic(auto, unfolding(crate::specs::Asked::own_count))]
fn own_numbers(alloc: Global, local: &RankMesh, rank: u32, base: u64) -> Result<Vec<u64>, NoMemory>
    requires { base + own_count rank local.now < 2 ^ 64 }
    ensures { IfOk result (λ numbers. numbers.items ≡ own_numbers rank base local.now.owners) }
{
    let points = local.plex().chart();
    let mut numbers = Vec::with_capacity(alloc, points as usize)?;
    let mut next = base;
    for p in 0..points {
        if local.owner(p) == rank {
            numbers.push(next)?;
            next += 1;
        } else {
            numbers.push(0)?;
        }
    }
    Ok(numbers)
}

/// The same for all ranks.
pub(crate) fn numbers_at_owners(
    alloc: Global,
    d: &Dist,
    bases: &Bases,
) -> Result<Vec<Vec<u64>>, NoMemory>
    requires { HaveRoom d.now bases.now.bases }
    ensures { IfOk result (λ numbers. lists_of numbers.items ≡ numbers_at_owners d.now bases.now.bases) }
{
    let mut numbers = Vec::with_capacity(alloc, d.ranks() as usize)?;
    for rank in 0..d.ranks() {
        numbers.push(own_numbers(alloc, d.local(rank), rank, bases.base(rank))?)?;
    }
    Ok(numbers)
}
