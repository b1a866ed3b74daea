//! The forest that is made.

ghost use Rattle.std.specs.Prelude.{◌≡◌, ◌<◌, ◌≤◌, ◌^◌, IfOk, length};

use crate::trouble::Trouble;
use plex_base::NoMemory;
use sf_defs::Leaf;
use sf_graph::Forest;
use std::alloc::Global;

/// How many ranks the forest has.
const RANKS: u32 = 4;

/// Leaf `i` of a rank: on a root of the next rank, which looks like any other.
fn leaf_at(rank: u32, i: u32, roots: u32) -> Leaf {
    let mixed = u64::from(i).wrapping_mul(0x9E37_79B9_7F4A_7C15) >> 20;
    Leaf {
        local: i.wrapping_mul(5),
        rank: rank.wrapping_add(1) % RANKS,
        index: mixed.checked_rem(u64::from(roots)).unwrap_or(0) as u32,
    }
}

/// The leaves of a rank.
fn own_leaves(alloc: Global, rank: u32, leaves: u32) -> Result<Vec<Leaf>, NoMemory>
    ensures { IfOk result (λ own. length own.items ≡ leaves) }
{
    let mut own = Vec::with_capacity(alloc, leaves as usize)?;
    for i in 0..leaves {
        own.push(leaf_at(rank, i, leaves))?;
    }
    Ok(own)
}

/// The forest: as many roots on each rank as leaves.
fn forest_of(alloc: Global, leaves: u32) -> Result<Forest, Trouble>
    requires { leaves ≤ 2 ^ 29 }
{
    let own = [
        own_leaves(alloc, 0, leaves)?,
        own_leaves(alloc, 1, leaves)?,
        own_leaves(alloc, 2, leaves)?,
        own_leaves(alloc, 3, leaves)?,
    ];
    let own = Vec::from_array(alloc, own)?;
    let roots = Vec::from_array(alloc, [leaves, leaves, leaves, leaves])?;
    Ok(Forest::new(alloc, roots, own)?)
}

/// A number with the degrees of a rank's roots mixed in.
fn own_degrees(forest: &Forest, rank: u32, sum: u64) -> u64
    requires { rank < length forest.now.roots }
{
    let mut sum = sum;
    for index in 0..forest.roots(rank) {
        sum = sum
            .wrapping_mul(31)
            .wrapping_add(u64::from(forest.degree(rank, index)));
    }
    sum
}

/// Makes the forest: the line `degrees N`.
pub(crate) fn forest_text(alloc: Global, leaves: u32) -> Result<String, Trouble>
    requires { leaves ≤ 2 ^ 29 }
{
    let forest = forest_of(alloc, leaves)?;
    let mut sum = 0;
    for rank in 0..forest.ranks() {
        sum = own_degrees(&forest, rank, sum);
    }
    Ok(format!(in alloc; "degrees {sum}\n")?)
}

/// A number with the leaves of a rank mixed in.
fn own_mixed(forest: &Forest, rank: u32, sum: u64) -> u64
    requires { rank < length forest.now.roots }
{
    let mut sum = sum;
    for i in 0..forest.leaf_count(rank) {
        let leaf = forest.leaf(rank, i);
        let name = u64::from(leaf.local) << 32 | u64::from(leaf.index);
        sum = sum
            .wrapping_mul(31)
            .wrapping_add(name)
            .wrapping_add(u64::from(leaf.rank));
    }
    sum
}

/// The line `leaves N` with a number mixed from all leaves.
pub(crate) fn mixed_leaves(alloc: Global, forest: &Forest) -> Result<String, Trouble> {
    let mut sum = 0;
    for rank in 0..forest.ranks() {
        sum = own_mixed(forest, rank, sum);
    }
    Ok(format!(in alloc; "leaves {sum}\n")?)
}
