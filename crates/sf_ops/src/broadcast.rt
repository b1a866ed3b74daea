//! Broadcast.
ghost use Rattle.std.specs.Prelude.{◌≡◌, ℕ, ◌<◌, [], length, map, get_or, OnOk, OnErr};
ghost use Rattle.plain_lists.specs.Vectors.{lists_of};
ghost use Rattle.sf_defs.specs.Forest.{leaves_on};
ghost use Rattle.sf_ops.specs.Asked.{AreRootValues, CoverLeaves, CoversOwn};
ghost use Rattle.sf_ops.specs.Copies.{AreCopies, handed};

use crate::asking::{loads_of, words_of};
use plex_base::NoMemory;
use sf_fabric::{Fabric, Round, Tag};
use sf_graph::Forest;
use std::alloc::Global;

/// Copies each root's word to its leaves (`PetscSFBcastBegin`): the place of each leaf gets its root's
/// word, every other place stays.
///
/// `roots` has a word for each root, `leaves` one at the local index of each leaf. The round is not
/// kept. For want of memory nothing is changed.
pub fn bcast<F: Fabric>(
    alloc: Global,
    forest: &Forest,
    roots: &[Vec<u64>],
    leaves: &mut [Vec<u64>],
    fabric: &mut F,
) -> Result<(), NoMemory>
    requires roots { AreRootValues forest.now (lists_of roots.now) }
    requires leaves { CoverLeaves forest.now (lists_of leaves.old) }

    ensures copies { OnOk result (AreCopies forest.now (lists_of roots.now) (lists_of leaves.old) (lists_of leaves.new)) }
    ensures shape { map length (lists_of leaves.new) ≡ map length (lists_of leaves.old) }
    ensures kept { F.kept fabric.new ≡ F.kept fabric.old }
    ensures no_memory { OnErr result (lists_of leaves.new ≡ lists_of leaves.old) }
{
    let words = words_of(alloc, roots)?;
    let asks = loads_of(alloc, forest)?;
    let round = fabric.run(Tag::Free, words, asks)?;
    for rank in 0..forest.ranks() {
        hand_out(&mut leaves[rank as usize], forest, rank, round.got(rank));
    }
    Ok(())
}

/// Hands the leaves of a rank what they fetched: from the last one on, so that a place keeps what its
/// first leaf fetched.
fn hand_out(own: &mut Vec<u64>, forest: &Forest, rank: u32, got: &[u64])
    requires rank { rank < length forest.now.roots }
    requires covers { CoversOwn own.old.items (leaves_on forest.now rank) }
    requires count { length got.now ≡ length (leaves_on forest.now rank) }
    ensures length { length own.new.items ≡ length own.old.items }
    ensures values { (local : ℕ) → get_or own.new.items local 0 ≡ handed (leaves_on forest.now rank) got.now (get_or own.old.items local 0) local }
{
    let count = forest.leaf_count(rank);
    for k in 0..count {
        let i = count - 1 - k;
        let leaf = forest.leaf(rank, i);
        own[leaf.local as usize] = got[i as usize];
    }
}
