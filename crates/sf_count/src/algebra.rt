//! The forests that are composed and inverted.

ghost use Rattle.std.specs.Prelude.{◌≡◌, ◌<◌, ◌≤◌, ◌^◌, ◌∷◌, [], IfOk, length};
ghost use Rattle.std.specs.List.{AllByRecursion};
ghost use Rattle.sf_defs.specs.declared.Leaf.{Leaf};
ghost use Rattle.sf_defs.specs.Forest.{FitsLocals};

use crate::forest::mixed_leaves;
use crate::trouble::Trouble;
use plex_base::NoMemory;
use sf_algebra::{InvertFault, compose, invert};
use sf_defs::Leaf;
use sf_graph::Forest;
use std::alloc::Global;

/// Leaf `i` of a rank: on a root of the next rank, which no other one has where the number of roots is no
/// multiple of 7919.
fn lone_leaf(rank: u32, i: u32, roots: u32) -> Leaf
    ensures { result.local ≡ i }
{
    let index = (u64::from(i) * 7919)
        .checked_rem(u64::from(roots))
        .unwrap_or(0);
    Leaf {
        local: i,
        rank: rank.wrapping_add(1) % 4,
        index: index as u32,
    }
}

/// The leaves of a rank.
#[tactic(auto, using(plain_lists::proofs::Each::all_append))]
fn lone_leaves(alloc: Global, rank: u32, leaves: u32) -> Result<Vec<Leaf>, NoMemory>
    ensures count { IfOk result (λ own. length own.items ≡ leaves) }
    ensures locals { IfOk result (λ own. AllByRecursion (λ (l : Leaf). l.local < leaves) own.items) }
{
    let mut own = Vec::with_capacity(alloc, leaves as usize)?;
    for i in 0..leaves {
        own.push(lone_leaf(rank, i, leaves))?;
    }
    Ok(own)
}

/// The forest: as many roots on each rank as leaves.
fn lone_forest(alloc: Global, leaves: u32) -> Result<Forest, Trouble>
    requires { leaves ≤ 2 ^ 29 }
    ensures roots { IfOk result (λ f. f.roots ≡ leaves ∷ leaves ∷ leaves ∷ leaves ∷ []) }
    ensures locals { IfOk result (λ f. FitsLocals f (leaves ∷ leaves ∷ leaves ∷ leaves ∷ [])) }
{
    let own = [
        lone_leaves(alloc, 0, leaves)?,
        lone_leaves(alloc, 1, leaves)?,
        lone_leaves(alloc, 2, leaves)?,
        lone_leaves(alloc, 3, leaves)?,
    ];
    let own = Vec::from_array(alloc, own)?;
    let roots = Vec::from_array(alloc, [leaves, leaves, leaves, leaves])?;
    Ok(Forest::new(alloc, roots, own)?)
}

/// Makes the forest: the line `leaves N`.
pub(crate) fn made_text(alloc: Global, leaves: u32) -> Result<String, Trouble>
    requires { leaves ≤ 2 ^ 29 }
{
    mixed_leaves(alloc, &lone_forest(alloc, leaves)?)
}

/// Composes the forest with itself: the line `leaves N`.
pub(crate) fn composed_text(alloc: Global, leaves: u32) -> Result<String, Trouble>
    requires { leaves ≤ 2 ^ 29 }
{
    let forest = lone_forest(alloc, leaves)?;
    mixed_leaves(alloc, &compose(alloc, &forest, &forest)?)
}

/// Inverts the forest: the line `leaves N`. Roots that are shared are refused words.
pub(crate) fn inverted_text(alloc: Global, leaves: u32) -> Result<String, Trouble>
    requires { leaves ≤ 2 ^ 29 }
{
    let forest = lone_forest(alloc, leaves)?;
    match invert(alloc, &forest, &[leaves, leaves, leaves, leaves]) {
        Ok(converse) => mixed_leaves(alloc, &converse),
        Err(InvertFault::NoMemory) => Err(Trouble::Memory),
        Err(InvertFault::Shared { .. }) => Err(Trouble::Words),
    }
}
