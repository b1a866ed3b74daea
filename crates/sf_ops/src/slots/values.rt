//! Values to begin with.
ghost use Rattle.std.specs.Prelude.{◌≡◌, ℕ, ◌+◌, ◌<◌, [], length, map, replicate, get_or, IfOk, OnOk};
ghost use Rattle.std.specs.List.{AllByRecursion};
ghost use Rattle.plain_lists.specs.Vectors.{lists_of};
ghost use Rattle.sf_defs.specs.declared.Leaf.{Leaf as Plain};
ghost use Rattle.sf_defs.specs.Forest.{leaves_on, IsForest};
ghost use Rattle.sf_graph.specs.Parts.{IsForRanks};
ghost use Rattle.sf_ops.specs.Asked.{CoverLeaves};
ghost use Rattle.sf_ops.specs.slots.Ones.{AreOnes};

use plex_base::NoMemory;
use sf_graph::Forest;
use std::alloc::Global;

/// 0 for each root.
pub(crate) fn zeros(alloc: Global, forest: &Forest) -> Result<Vec<Vec<u64>>, NoMemory>
    ensures zeros { IfOk result (λ values. lists_of values.items ≡ map (λ n. replicate n 0) forest.now.roots) }
    ensures right { OnOk result (IsForest forest.now) }
    ensures for_ranks { OnOk result (IsForRanks forest.now) }
{
    let mut values = Vec::with_capacity(alloc, forest.ranks() as usize)?;
    for rank in 0..forest.ranks() {
        values.push(vec![in alloc; 0u64; forest.roots(rank) as usize]?)?;
    }
    Ok(values)
}

/// 1 at each leaf.
pub(crate) fn ones(alloc: Global, forest: &Forest) -> Result<Vec<Vec<u64>>, NoMemory>
    ensures ranks { IfOk result (λ values. length values.items ≡ length forest.now.roots) }
    ensures ones { IfOk result (λ values. (rank : ℕ) → rank < length forest.now.roots → AreOnes (get_or (lists_of values.items) rank []) (leaves_on forest.now rank)) }
{
    let mut values = Vec::with_capacity(alloc, forest.ranks() as usize)?;
    for rank in 0..forest.ranks() {
        values.push(vec![in alloc; 1u64; reach(forest, rank)]?)?;
    }
    Ok(values)
}

/// A number above the local index of each leaf of a rank.
fn reach(forest: &Forest, rank: u32) -> usize
    requires { rank < length forest.now.roots }
    ensures { AllByRecursion (λ (l : Plain). l.local < result) (leaves_on forest.now rank) }
{
    let mut reach = 0;
    for i in 0..forest.leaf_count(rank) {
        reach = reach.max(forest.leaf(rank, i).local as usize + 1);
    }
    reach
}
