//! The words and asks of a forest's round.
ghost use Rattle.std.specs.Prelude.{◌≡◌, ℕ, ◌+◌, ◌^◌, ◌<◌, [], length, map, get_or, sum, take, IfOk, OnOk};
ghost use Rattle.plain_lists.specs.Vectors.{lists_of};
ghost use Rattle.sf_defs.specs.declared.Op.TheVariants.{Load};
ghost use Rattle.sf_graph.specs.Parts.{IsForRanks};
ghost use Rattle.sf_defs.specs.Forest.{leaves_on, IsForest};
ghost use Rattle.sf_ops.specs.Asked.{first_word, own_asks, asks_of, words_of, CoversOwn, CoverLeaves};

use plex_base::NoMemory;
use sf_defs::{Ask, Op};
use sf_graph::Forest;
use std::alloc::Global;

/// The values of all roots, by rank and index.
pub(crate) fn words_of(alloc: Global, roots: &[Vec<u64>]) -> Result<Vec<u64>, NoMemory>
    ensures words { IfOk result (λ words. words.items ≡ words_of (lists_of roots.now)) }
    ensures small { IfOk result (λ words. (w : ℕ) → get_or words.items w 0 < 2 ^ 64) }
{
    let mut words = Vec::new(alloc);
    for own in roots {
        words.extend_from_slice(own)?;
    }
    words_fit(&words);
    Ok(words)
}

/// Words are below 2^64. Does nothing.
fn words_fit(words: &[u64])
    ensures { (w : ℕ) → get_or words.now w 0 < 2 ^ 64 }
{}

/// What all leaves ask, by rank.
pub(crate) fn asks_of(
    alloc: Global,
    forest: &Forest,
    op: Op,
    leaves: &[Vec<u64>],
) -> Result<Vec<Vec<Ask>>, NoMemory>
    requires { CoverLeaves forest.now (lists_of leaves.now) }
    ensures asks { IfOk result (λ asks. lists_of asks.items ≡ asks_of forest.now op (lists_of leaves.now)) }
    ensures right { OnOk result (IsForest forest.now) }
    ensures for_ranks { OnOk result (IsForRanks forest.now) }
{
    let firsts = first_words(alloc, forest)?;
    let mut asks = Vec::with_capacity(alloc, leaves.len())?;
    for rank in 0..forest.ranks() {
        asks.push(own_asks(alloc, forest, rank, op, &firsts, &leaves[rank as usize])?)?;
    }
    Ok(asks)
}

/// The loads of all leaves, by rank.
pub(crate) fn loads_of(alloc: Global, forest: &Forest) -> Result<Vec<Vec<Ask>>, NoMemory>
    ensures asks { IfOk result (λ asks. lists_of asks.items ≡ asks_of forest.now Load []) }
    ensures right { OnOk result (IsForest forest.now) }
    ensures for_ranks { OnOk result (IsForRanks forest.now) }
{
    let firsts = first_words(alloc, forest)?;
    let mut asks = Vec::with_capacity(alloc, forest.ranks() as usize)?;
    for rank in 0..forest.ranks() {
        asks.push(own_asks(alloc, forest, rank, Op::Load, &firsts, &[])?)?;
    }
    Ok(asks)
}

/// The word of root 0 of each rank.
fn first_words(alloc: Global, forest: &Forest) -> Result<Vec<u32>, NoMemory>
    ensures length { IfOk result (λ firsts. length firsts.items ≡ length forest.now.roots) }
    ensures words { IfOk result (λ firsts. (rank : ℕ) → rank < length forest.now.roots → get_or firsts.items rank 0 ≡ first_word forest.now.roots rank) }
{
    let mut firsts = Vec::with_capacity(alloc, forest.ranks() as usize)?;
    let mut first = 0;
    for rank in 0..forest.ranks() {
        firsts.push(first)?;
        first += forest.roots(rank);
    }
    Ok(firsts)
}

/// What the leaves of a rank ask.
fn own_asks(
    alloc: Global,
    forest: &Forest,
    rank: u32,
    op: Op,
    firsts: &[u32],
    values: &[u64],
) -> Result<Vec<Ask>, NoMemory>
    requires rank { rank < length forest.now.roots }
    requires right { IsForest forest.now }
    requires for_ranks { IsForRanks forest.now }
    requires length { length firsts.now ≡ length forest.now.roots }
    requires words { (rank : ℕ) → rank < length forest.now.roots → get_or firsts.now rank 0 ≡ first_word forest.now.roots rank }
    ensures { IfOk result (λ asks. asks.items ≡ own_asks forest.now.roots op values.now (leaves_on forest.now rank)) }
{
    let mut asks = Vec::with_capacity(alloc, forest.leaf_count(rank) as usize)?;
    for i in 0..forest.leaf_count(rank) {
        let leaf = forest.leaf(rank, i);
        asks.push(Ask {
            word: firsts[leaf.rank as usize] + leaf.index,
            op,
            value: value_at(values, leaf.local),
        })?;
    }
    Ok(asks)
}

/// The value at a local index, and 0 where there is none.
fn value_at(values: &[u64], local: u32) -> u64
    ensures { result ≡ get_or values.now local 0 }
{
    match values.get(local as usize) {
        Some(value) => *value,
        None => 0,
    }
}
