//! The owners of vertices.
ghost use Rattle.std.specs.Prelude.{◌≡◌, ℕ, ◌<◌, ◌^◌, List, length, map, slice_index, IfOk};
ghost use Rattle.std.specs.List.{AllByRecursion};
ghost use Rattle.plain_lists.specs.Lists.{below};
ghost use Rattle.rank_defs.specs.Ranks.{IsRightAssignment};
ghost use Rattle.headline_laws.specs.seed_laws.Given.{owners_of};
ghost use Rattle.dist_seed.specs.vertex_owners.Asked.{AreHeld};

use crate::rank_cells::RankCells;
use crate::vertex_owners::asks::asks_of;
use plex_base::NoMemory;
use plex_mesh::Mesh;
use sf_fabric::{Fabric, Tag};
use std::alloc::Global;

/// No rank has this number: there are at most 64.
const NO_RANK: u64 = 64;

/// These numbers in 32 bits.
fn narrow(alloc: Global, words: &[u64]) -> Result<Vec<u32>, NoMemory>
    requires { AllByRecursion (λ w. w < 2 ^ 32) words.now }
    ensures { IfOk result (λ numbers. numbers.items ≡ words.now) }
{
    let mut numbers = Vec::with_capacity(alloc, words.len())?;
    for word in words {
        numbers.push(*word as u32)?;
    }
    Ok(numbers)
}

/// The owner of each vertex of a mesh: the least rank that holds it. The ranks hold these cells, as `ranks`
/// gives each cell a rank.
///
/// Runs one round, which is not kept. Fails only for want of memory.
pub fn vertex_owners<F: Fabric>(
    alloc: Global,
    mesh: &Mesh,
    ranks: &[u32],
    held: &[RankCells],
    fabric: &mut F,
) -> Result<Vec<u32>, NoMemory>
    requires right { IsRightAssignment mesh.now (length held.now) ranks.now }
    requires held { AreHeld mesh.now ranks.now held.now }
    ensures owners { IfOk result (λ owners. owners.items ≡ owners_of mesh.now ranks.now (below (length mesh.now.at))) }
    ensures kept { F.kept fabric.new ≡ F.kept fabric.old }
{
    // It is a right mesh: the proof takes this from the call.
    let _dim = mesh.dim();
    let words = vec![in alloc; NO_RANK; mesh.vertices() as usize]?;
    let asks = asks_of(alloc, held)?;
    let round = fabric.run(Tag::Free, words, asks)?;
    Ok(narrow(alloc, round.after())?)
}

/// The owners of some vertices, by those of all.
pub fn owners_at(alloc: Global, owners: &[u32], vertices: &[u32]) -> Result<Vec<u32>, NoMemory>
    requires { AllByRecursion (λ v. v < length owners.now) vertices.now }
    ensures { IfOk result (λ own. own.items ≡ map (slice_index owners.now) vertices.now) }
{
    let mut own = Vec::with_capacity(alloc, vertices.len())?;
    for v in vertices {
        own.push(owners[*v as usize])?;
    }
    Ok(own)
}
