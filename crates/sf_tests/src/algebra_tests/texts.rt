//! Forests as short texts.
//!
//! There is a slash between ranks. A rank is its number of roots and then its leaves; a leaf `3-0.1` has
//! the local index 3, and its root is root 1 of rank 0.
ghost use Rattle.std.specs.Prelude.{◌≡◌, ◌<◌, ◌≤◌, length, IfOk};

use sf_graph::{Forest, Leaf};
use std::alloc::Global;
use std::test::Fail;

/// A number of one or two digits.
pub(crate) fn number(text: &str) -> Result<u32, Fail>
    ensures { IfOk result (λ n. n ≤ 99) }
{
    match text.parse::<u32>() {
        Ok(number) if number <= 99 => Ok(number),
        _ => Err(Fail::from("no number of two digits")),
    }
}

fn leaf_of(text: &str) -> Result<Leaf, Fail> {
    let (local, root) = text.split_once('-').ok_or("a leaf without a root")?;
    let (rank, index) = root.split_once('.').ok_or("a root without an index")?;
    Ok(Leaf {
        local: number(local)?,
        rank: number(rank)?,
        index: number(index)?,
    })
}

/// How many roots a rank has, and its leaves.
fn rank_of(alloc: Global, text: &str) -> Result<(u32, Vec<Leaf>), Fail>
    ensures roots { IfOk result (λ own. own.0 ≤ 99) }
    ensures leaves { IfOk result (λ own. length own.1.items ≤ 99) }
{
    let mut tokens = text.split_whitespace();
    let roots = number(tokens.next().ok_or("a rank without roots")?)?;
    let mut leaves = Vec::new(alloc);
    for token in tokens {
        leaves.push(leaf_of(token)?)?;
    }
    if leaves.len() > 99 {
        return Err(Fail::from("too many leaves"));
    }
    Ok((roots, leaves))
}

/// The forest of a text.
pub(crate) fn forest_of(alloc: Global, text: &str) -> Result<Forest, Fail> {
    let mut roots = Vec::new(alloc);
    let mut leaves = Vec::new(alloc);
    for own in text.split('/') {
        let (own_roots, own_leaves) = rank_of(alloc, own)?;
        roots.push(own_roots)?;
        leaves.push(own_leaves)?;
    }
    if leaves.is_empty() || leaves.len() > 64 {
        return Err(Fail::from("no number of ranks"));
    }
    let forest = Forest::new(alloc, roots, leaves)?;
    Ok(forest)
}

/// The text of a rank.
fn rank_text(alloc: Global, forest: &Forest, rank: u32) -> Result<String, Fail>
    requires { rank < length forest.now.roots }
{
    let mut text = format!(in alloc; "{}", forest.roots(rank))?;
    for i in 0..forest.leaf_count(rank) {
        let leaf = forest.leaf(rank, i);
        text.push_str(&format!(in alloc; " {}-{}.{}", leaf.local, leaf.rank, leaf.index)?)?;
    }
    Ok(text)
}

/// The text of a forest.
pub(crate) fn text_of(alloc: Global, forest: &Forest) -> Result<String, Fail> {
    let mut text = String::new(alloc);
    for rank in 0..forest.ranks() {
        if rank > 0 {
            text.push_str(" / ")?;
        }
        text.push_str(&rank_text(alloc, forest, rank)?)?;
    }
    Ok(text)
}
