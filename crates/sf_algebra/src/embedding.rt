//! Restriction to some of the roots or leaves.
ghost use Rattle.std.specs.Prelude.{◌≡◌, ◌<◌, [], length, map, filter, get_or, IfOk};
ghost use Rattle.plain_lists.specs.Vectors.{lists_of};
ghost use Rattle.sf_defs.specs.Forest.{embed_leaves, embed_roots, is_kept, leaves_on, root_at, selected, IsForest};
ghost use Rattle.sf_graph.specs.Parts.{IsForRanks};

use crate::made::{made_of, roots_of};
use plex_base::NoMemory;
use sf_graph::{Forest, Leaf};
use std::alloc::Global;

/// The same roots, and of the leaves those on the roots that are kept
/// (`PetscSFCreateEmbeddedRootSF`).
///
/// `keep` has a flag for each root, by rank and index. `NoMemory` comes for want of memory alone.
pub fn embed_roots(alloc: Global, a: &Forest, keep: &[Vec<bool>]) -> Result<Forest, NoMemory>
    requires { map length (lists_of keep.now) ≡ a.now.roots }
    ensures { IfOk result (λ f. f ≡ embed_roots a.now (lists_of keep.now)) }
{
    let mut leaves = Vec::with_capacity(alloc, a.ranks() as usize)?;
    for rank in 0..a.ranks() {
        leaves.push(leaves_on_kept(alloc, a, rank, keep)?)?;
    }
    made_of(alloc, roots_of(alloc, a)?, leaves)
}

/// The leaves of a rank on the roots that are kept.
fn leaves_on_kept(
    alloc: Global,
    a: &Forest,
    rank: u32,
    keep: &[Vec<bool>],
) -> Result<Vec<Leaf>, NoMemory>
    requires lengths { map length (lists_of keep.now) ≡ a.now.roots }
    requires rank { rank < length a.now.roots }
    requires right { IsForest a.now }
    requires for_ranks { IsForRanks a.now }
    ensures { IfOk result (λ own. own.items ≡ filter (λ l. is_kept (lists_of keep.now) (root_at l)) (leaves_on a.now rank)) }
{
    let mut own = Vec::new(alloc);
    for i in 0..a.leaf_count(rank) {
        let leaf = a.leaf(rank, i);
        if is_kept(keep, leaf) {
            own.push(leaf)?;
        }
    }
    Ok(own)
}

/// Whether the leaf is on a root that is kept.
fn is_kept(keep: &[Vec<bool>], leaf: Leaf) -> bool
    requires rank { leaf.rank < length keep.now }
    requires root { leaf.index < length (get_or (lists_of keep.now) leaf.rank []) }
    ensures { result ≡ is_kept (lists_of keep.now) (root_at leaf) }
{
    keep[leaf.rank as usize][leaf.index as usize]
}

/// The same roots, and of the leaves of each rank those at the places that are kept
/// (`PetscSFCreateEmbeddedLeafSF`).
///
/// `keep` has a flag for each leaf, by rank and place. `NoMemory` comes for want of memory alone.
pub fn embed_leaves(alloc: Global, a: &Forest, keep: &[Vec<bool>]) -> Result<Forest, NoMemory>
    requires { map length (lists_of keep.now) ≡ map length a.now.leaves }
    ensures { IfOk result (λ f. f ≡ embed_leaves a.now (lists_of keep.now)) }
{
    let mut leaves = Vec::with_capacity(alloc, a.ranks() as usize)?;
    for rank in 0..a.ranks() {
        leaves.push(kept_leaves(alloc, a, rank, &keep[rank as usize])?)?;
    }
    made_of(alloc, roots_of(alloc, a)?, leaves)
}

/// The leaves of a rank at the places that are kept.
fn kept_leaves(alloc: Global, a: &Forest, rank: u32, keep: &[bool]) -> Result<Vec<Leaf>, NoMemory>
    requires length { length keep.now ≡ length (leaves_on a.now rank) }
    requires rank { rank < length a.now.roots }
    ensures { IfOk result (λ own. own.items ≡ selected keep.now (leaves_on a.now rank)) }
{
    let mut own = Vec::new(alloc);
    for i in 0..a.leaf_count(rank) {
        if keep[i as usize] {
            own.push(a.leaf(rank, i))?;
        }
    }
    Ok(own)
}
