//! Fetch and operate.
ghost use Rattle.std.specs.Prelude.{◌≡◌, ◌+◌, ◌≤◌, length, map, slice_range, IfOk, OnErr};
ghost use Rattle.plain_lists.specs.Vectors.{lists_of};
ghost use Rattle.sf_defs.specs.Rounds.{IsLegal};
ghost use Rattle.sf_fabric.specs.Kept.{kept_with};
ghost use Rattle.sf_ops.specs.Asked.{asks_of, words_of, AreRootValues, CoverLeaves, MayAsk};

use crate::asking::{asks_of, words_of};
use plex_base::NoMemory;
use sf_fabric::{Fabric, Op, Round, Tag};
use sf_graph::Forest;
use std::alloc::Global;

/// Does what each leaf asks of its root: `op` with the leaf's word (`PetscSFFetchAndOpBegin`). The
/// words of the round are the roots by rank and index, its asks the leaves in order, so that the
/// round tells what each leaf fetched: its root's word just before its own update.
///
/// `roots` has a word for each root, `leaves` one at the local index of each leaf. With `Load` the
/// leaves' words are 0, with `Replace` no root has two leaves, and a root's word and its `Sum`s add up
/// to less than 2^64.
///
/// For want of memory nothing is changed.
pub fn fetch_and_op<F: Fabric>(
    alloc: Global,
    forest: &Forest,
    leaves: &[Vec<u64>],
    roots: &mut [Vec<u64>],
    op: Op,
    tag: Tag,
    fabric: &mut F,
) -> Result<Round, NoMemory>
    requires roots { AreRootValues forest.now (lists_of roots.old) }
    requires leaves { CoverLeaves forest.now (lists_of leaves.now) }
    requires asks { MayAsk forest.now op (lists_of leaves.now) (lists_of roots.old) }

    ensures legal { IfOk result (λ r. IsLegal r) }
    ensures tag { IfOk result (λ r. r.tag ≡ tag) }
    ensures before { IfOk result (λ r. r.before ≡ words_of (lists_of roots.old)) }
    ensures asks { IfOk result (λ r. r.asks ≡ asks_of forest.now op (lists_of leaves.now)) }
    ensures after { IfOk result (λ r. words_of (lists_of roots.new) ≡ r.after) }
    ensures shape { AreRootValues forest.now (lists_of roots.new) }
    ensures kept { IfOk result (λ r. F.kept fabric.new ≡ kept_with (F.kept fabric.old) r) }
    ensures no_memory { OnErr result (lists_of roots.new ≡ lists_of roots.old) }
    ensures not_kept { OnErr result (F.kept fabric.new ≡ F.kept fabric.old) }
{
    let words = words_of(alloc, roots)?;
    let asks = asks_of(alloc, forest, op, leaves)?;
    let round = fabric.run(tag, words, asks)?;
    put_back(round.after(), roots);
    Ok(round)
}

/// Puts words back to their roots, by rank and index.
fn put_back(words: &[u64], roots: &mut [Vec<u64>])
    requires { length words.now ≡ length (words_of (lists_of roots.old)) }
    ensures shape { map length (lists_of roots.new) ≡ map length (lists_of roots.old) }
    ensures words { words_of (lists_of roots.new) ≡ words.now }
{
    let mut first = 0;
    for rank in 0..roots.len() {
        let own = &mut roots[rank];
        let count = own.len();
        fill(own, words, first);
        first += count;
    }
}

/// Fills a rank's values with words from place `first` on.
fn fill(own: &mut Vec<u64>, words: &[u64], first: usize)
    requires { first + length own.old.items ≤ length words.now }
    ensures { own.new.items ≡ slice_range words.now first (first + length own.old.items) }
{
    let after = first + own.len();
    own.copy_from_slice(&words[first..after]);
}
