//! Flags and words for the roots and leaves of a forest, from short texts with a slash between ranks.
ghost use Rattle.std.specs.Prelude.{◌≡◌, ◌<◌, ◌≤◌, length, map, IfOk};
ghost use Rattle.std.specs.List.{AllByRecursion};
ghost use Rattle.plain_lists.specs.Vectors.{lists_of};
ghost use Rattle.sf_defs.specs.declared.Leaf.{Leaf as Plain};
ghost use Rattle.sf_defs.specs.Forest.{leaves_on};
ghost use Rattle.sf_ops.specs.Asked.{CoverLeaves};

use crate::algebra_tests::texts::number;
use sf_graph::Forest;
use std::alloc::Global;
use std::test::Fail;

/// The part of a rank in a text.
fn own_text(text: &str, rank: u32) -> &str {
    text.split('/').nth(rank as usize).unwrap_or("").trim()
}

/// So many flags, which are set where the text has a 1.
fn flags(alloc: Global, text: &str, count: u32) -> Result<Vec<bool>, Fail>
    ensures { IfOk result (λ own. length own.items ≡ count) }
{
    let mut own = Vec::with_capacity(alloc, count as usize)?;
    for i in 0..count as usize {
        own.push(text.as_bytes().get(i) == Some(&b'1'))?;
    }
    Ok(own)
}

/// A flag for each root.
pub(crate) fn root_flags(alloc: Global, forest: &Forest, text: &str) -> Result<Vec<Vec<bool>>, Fail>
    ensures { IfOk result (λ keep. map length (lists_of keep.items) ≡ forest.now.roots) }
{
    let mut keep = Vec::new(alloc);
    for rank in 0..forest.ranks() {
        keep.push(flags(alloc, own_text(text, rank), forest.roots(rank))?)?;
    }
    Ok(keep)
}

/// A flag for each leaf.
pub(crate) fn leaf_flags(alloc: Global, forest: &Forest, text: &str) -> Result<Vec<Vec<bool>>, Fail>
    ensures { IfOk result (λ keep. map length (lists_of keep.items) ≡ map length forest.now.leaves) }
{
    let mut keep = Vec::new(alloc);
    for rank in 0..forest.ranks() {
        keep.push(flags(alloc, own_text(text, rank), forest.leaf_count(rank))?)?;
    }
    Ok(keep)
}

/// A number above the local index of each leaf of a rank.
pub(crate) fn reach(forest: &Forest, rank: u32) -> usize
    requires { rank < length forest.now.roots }
    ensures { AllByRecursion (λ (l : Plain). l.local < result) (leaves_on forest.now rank) }
{
    let mut reach = 0;
    for i in 0..forest.leaf_count(rank) {
        reach = reach.max(forest.leaf(rank, i).local as usize + 1);
    }
    reach
}

/// At least so many words: those of the text, and then 9s.
fn own_words(alloc: Global, text: &str, reach: usize) -> Result<Vec<u64>, Fail>
    ensures { IfOk result (λ own. reach ≤ length own.items) }
{
    let mut own = Vec::new(alloc);
    for token in text.split_whitespace() {
        own.push(u64::from(number(token)?))?;
    }
    for _ in own.len()..reach {
        own.push(9)?;
    }
    if own.len() < reach {
        return Err(Fail::from("too few words"));
    }
    Ok(own)
}

/// Words for the places of all leaves: those of the text, and then 9s.
pub(crate) fn leaf_words(alloc: Global, forest: &Forest, text: &str) -> Result<Vec<Vec<u64>>, Fail>
    ensures { IfOk result (λ values. CoverLeaves forest.now (lists_of values.items)) }
{
    let mut values = Vec::new(alloc);
    for rank in 0..forest.ranks() {
        values.push(own_words(alloc, own_text(text, rank), reach(forest, rank))?)?;
    }
    Ok(values)
}

/// The text of words.
pub(crate) fn words_text(alloc: Global, values: &[Vec<u64>]) -> Result<String, Fail> {
    let mut text = String::new(alloc);
    for (rank, own) in values.iter().enumerate() {
        if rank > 0 {
            text.push_str(" /")?;
        }
        for word in own {
            text.push_str(&format!(in alloc; " {word}")?)?;
        }
    }
    Ok(text)
}
