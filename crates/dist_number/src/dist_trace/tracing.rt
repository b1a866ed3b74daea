//! The first trace: where each rank has its own points.

ghost use Rattle.std.specs.Prelude.{◌≡◌, ℕ, ◌<◌, ◌^◌, List, length, map, sum_by, IfOk};
ghost use Rattle.std.specs.List.{enumerate_from};
ghost use Rattle.plain_lists.specs.Vectors.{lists_of};
ghost use Rattle.mesh_defs.specs.Mesh.{Mesh};
ghost use Rattle.rank_defs.specs.Spread.{IsDist, migration_forest};
ghost use Rattle.sf_graph.specs.Parts.{IsForRanks};
ghost use Rattle.dist_number.specs.dist_trace.Own.{own_leaves, own_list};

use dist_state::{Dist, RankMesh};
use plex_base::NoMemory;
use sf_graph::{Forest, Leaf};
use std::alloc::Global;

/// So many leaves no forest has: memory for them can't be had.
const TOO_MANY_LEAVES: usize = 4_294_967_296;

/// The trace of a distribution to itself: on each rank a leaf for each point that it owns, on the
/// same place. Later redistributions are composed with it.
///
/// Fails only for want of memory.
pub fn first_trace(alloc: Global, d: &Dist) -> Result<Forest, NoMemory>
    ensures { (m : Mesh) (dofs : List (List ℕ)) (a : List ℕ) (n : ℕ) → IsDist d.now m dofs a n 0 → IfOk result (λ f. f ≡ migration_forest m a a n) }
{
    let roots = roots_of(alloc, d.points())?;
    let leaves = own_lists(alloc, d)?;
    let _ranks = d.ranks();
    // Its leaves rise and have roots, so that only memory can lack.
    match Forest::new(alloc, roots, leaves) {
        Ok(forest) => Ok(forest),
        Err(_) => Err(NoMemory),
    }
}

/// How many roots each rank has.
fn roots_of(alloc: Global, forest: &Forest) -> Result<Vec<u32>, NoMemory>
    ensures roots { IfOk result (λ roots. roots.items ≡ forest.now.roots) }
    ensures for_ranks { IfOk result (λ roots. IsForRanks forest.now) }
{
    let mut roots = Vec::with_capacity(alloc, forest.ranks() as usize)?;
    for rank in 0..forest.ranks() {
        roots.push(forest.roots(rank))?;
    }
    Ok(roots)
}

/// A leaf for each point that the rank owns, on the same place.
fn own_leaves(alloc: Global, local: &RankMesh, rank: u32) -> Result<Vec<Leaf>, NoMemory>
    ensures { IfOk result (λ leaves. leaves.items ≡ own_leaves rank local.now.owners) }
{
    let mut leaves = Vec::new(alloc);
    for p in 0..local.plex().chart() {
        if local.owner(p) == rank {
            leaves.push(Leaf {
                local: p,
                rank,
                index: p,
            })?;
        }
    }
    Ok(leaves)
}

/// These leaves of each rank.
fn own_lists(alloc: Global, d: &Dist) -> Result<Vec<Vec<Leaf>>, NoMemory>
    ensures lists { IfOk result (λ lists. lists_of lists.items ≡ map own_list (enumerate_from 0 d.now.locals)) }
    ensures few { IfOk result (λ lists. sum_by length (lists_of lists.items) < 2 ^ 32) }
{
    let mut lists = Vec::new(alloc);
    let mut total = 0;
    for rank in 0..d.ranks() {
        let leaves = own_leaves(alloc, d.local(rank), rank)?;
        if leaves.len() >= TOO_MANY_LEAVES - total {
            return Err(NoMemory);
        }
        total += leaves.len();
        lists.push(leaves)?;
    }
    Ok(lists)
}
