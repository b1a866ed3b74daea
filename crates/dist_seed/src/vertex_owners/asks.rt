//! What ranks ask at the vertices that they hold.
ghost use Rattle.std.specs.Prelude.{◌≡◌, ◌≤◌, length, map, IfOk};
ghost use Rattle.std.specs.List.{enumerate_from};
ghost use Rattle.plain_lists.specs.Vectors.{lists_of};
ghost use Rattle.headline_laws.specs.seed_laws.Asked.{asks_at};
ghost use Rattle.dist_seed.specs.vertex_owners.Asked.{own_asks};

use crate::rank_cells::RankCells;
use plex_base::NoMemory;
use sf_fabric::{Ask, Op};
use std::alloc::Global;

/// The minimum with a rank's number at each of its vertices.
pub(crate) fn asks_at(alloc: Global, rank: u32, vertices: &[u32]) -> Result<Vec<Ask>, NoMemory>
    ensures { IfOk result (λ asks. asks.items ≡ asks_at rank vertices.now) }
{
    let mut asks = Vec::with_capacity(alloc, vertices.len())?;
    for v in vertices {
        asks.push(Ask {
            word: *v,
            op: Op::Min,
            value: u64::from(rank),
        })?;
    }
    Ok(asks)
}

/// What all ranks ask.
pub(crate) fn asks_of(alloc: Global, held: &[RankCells]) -> Result<Vec<Vec<Ask>>, NoMemory>
    requires { length held.now ≤ 64 }
    ensures { IfOk result (λ asks. lists_of asks.items ≡ map own_asks (enumerate_from 0 held.now)) }
{
    let mut asks = Vec::with_capacity(alloc, held.len())?;
    for rank in 0..held.len() {
        asks.push(asks_at(alloc, rank as u32, held[rank].vertices())?)?;
    }
    Ok(asks)
}
