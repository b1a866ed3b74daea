//! How many points ranks own.
ghost use Rattle.std.specs.Prelude.{◌≡◌, ◌==◌, ◌^◌, ◌<◌, count_by, IfOk, OnOk};
ghost use Rattle.std.specs.List.{AllByRecursion};
ghost use Rattle.plain_lists.specs.Vectors.{lists_of};
ghost use Rattle.dist_number.specs.Asked.{own_count, own_counts, sums_of};

use dist_state::{Dist, RankMesh};
use plex_base::NoMemory;
use sf_fabric::{Ask, Op};
use std::alloc::Global;

/// How many of the points that a rank holds it owns.
#[tactic(auto, unfolding(crate::specs::Asked::own_count))]
pub(crate) fn own_count(local: &RankMesh, rank: u32) -> u64
    ensures count { result ≡ own_count rank local.now }
    ensures small { result < 2 ^ 32 }
{
    let mut count = 0;
    for p in 0..local.plex().chart() {
        if local.owner(p) == rank {
            count += 1;
        }
    }
    count
}

/// What ranks ask of the one word of the number round: each the sum with how many points it owns.
pub(crate) fn sums_of(alloc: Global, d: &Dist) -> Result<Vec<Vec<Ask>>, NoMemory>
    ensures asks { IfOk result (λ asks. lists_of asks.items ≡ sums_of (own_counts d.now)) }
    ensures small { OnOk result (AllByRecursion (λ n. n < 2 ^ 32) (own_counts d.now)) }
{
    let mut asks = Vec::with_capacity(alloc, d.ranks() as usize)?;
    for rank in 0..d.ranks() {
        let ask = Ask {
            word: 0,
            op: Op::Sum,
            value: own_count(d.local(rank), rank),
        };
        asks.push(vec![in alloc; ask]?)?;
    }
    Ok(asks)
}
