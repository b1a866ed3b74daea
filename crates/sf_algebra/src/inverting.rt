//! Inversion.
ghost use Rattle.std.specs.Prelude.{◌≡◌, ℕ, ◌^◌, ◌<◌, [], None, length, map, get_or, sum, IfOk, IfErr, OnOk};
ghost use Rattle.plain_lists.specs.Vectors.{lists_of};
ghost use Rattle.sf_defs.specs.Forest.{invert, leaf_of, leaves_on, shared_root, FitsLocals};
ghost use Rattle.sf_graph.specs.Parts.{IsForRanks};
ghost use Rattle.sf_defs.specs.Forest.{IsForest};
ghost use Rattle.sf_algebra.specs.Faults.{IsSharedFault};

use crate::fault::InvertFault;
use crate::found::{RootLeaves, no_leaves, note_leaves};
use crate::made::made_of;
use crate::shared::first_shared;
use plex_base::NoMemory;
use sf_graph::Forest;
use std::alloc::Global;

/// The converse of a forest whose roots have one leaf at most (`PetscSFCreateInverseSF`): a root with a
/// leaf becomes a leaf, and that leaf its root. There are `roots` roots on the ranks, and the leaves
/// of a rank stand by rising local index.
///
/// `roots` has one number for each rank, above the local index of each of its leaves; together they
/// are fewer than 2^32.
///
/// `Shared` comes exactly where a root has two leaves, with the first such root by rank and index.
/// `NoMemory` comes for want of memory alone.
pub fn invert(alloc: Global, a: &Forest, roots: &[u32]) -> Result<Forest, InvertFault>
    requires ranks { length roots.now ≡ length a.now.roots }
    requires few { sum roots.now < 2 ^ 32 }
    requires fits { FitsLocals a.now roots.now }
    ensures ok { IfOk result (λ f. f ≡ invert a.now roots.now) }
    ensures alone { OnOk result (shared_root a.now ≡ None) }
    ensures err { IfErr result (λ fault. IsSharedFault fault (shared_root a.now)) }
{
    match first_shared(a) {
        Some((rank, root)) => Err(InvertFault::Shared { rank, root }),
        None => Ok(converse(alloc, a, roots)?),
    }
}

/// The first leaf of each root as its root.
fn converse(alloc: Global, a: &Forest, roots: &[u32]) -> Result<Forest, NoMemory>
    requires ranks { length roots.now ≡ length a.now.roots }
    requires few { sum roots.now < 2 ^ 32 }
    requires fits { FitsLocals a.now roots.now }
    ensures { IfOk result (λ f. f ≡ invert a.now roots.now) }
{
    let found = leaves_of_roots(alloc, a)?;
    let mut leaves = Vec::with_capacity(alloc, found.len())?;
    for own in &found {
        leaves.push(own.turned(alloc)?)?;
    }
    made_of(alloc, Vec::from_slice(alloc, roots)?, leaves)
}

/// The first leaf on each root of each rank.
fn leaves_of_roots(alloc: Global, a: &Forest) -> Result<Vec<RootLeaves>, NoMemory>
    ensures shape { IfOk result (λ found. map length found.items ≡ a.now.roots) }
    ensures leaves { IfOk result (λ found. (rank index : ℕ) → get_or (get_or found.items rank []) index None ≡ leaf_of a.now rank index) }
    ensures right { OnOk result (IsForest a.now) }
    ensures for_ranks { OnOk result (IsForRanks a.now) }
{
    let mut found = no_leaves(alloc, a)?;
    for rank in 0..a.ranks() {
        note_leaves(&mut found, a, rank);
    }
    Ok(found)
}
