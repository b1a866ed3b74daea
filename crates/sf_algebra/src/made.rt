//! Forests out of lists that are known to be some.
ghost use Rattle.std.specs.Prelude.{◌≡◌, IfOk, OnOk};
ghost use Rattle.plain_lists.specs.Vectors.{lists_of};
ghost use Rattle.sf_defs.specs.Forest.{IsForest};
ghost use Rattle.sf_graph.specs.Parts.{forest_of, IsForRanks};

use plex_base::NoMemory;
use sf_graph::{Forest, Leaf};
use std::alloc::Global;

/// The forest of these lists, which are one, so that only memory can lack.
pub(crate) fn made_of(
    alloc: Global,
    roots: Vec<u32>,
    leaves: Vec<Vec<Leaf>>,
) -> Result<Forest, NoMemory>
    requires right { IsForest (forest_of roots.items (lists_of leaves.items)) }
    requires for_ranks { IsForRanks (forest_of roots.items (lists_of leaves.items)) }
    ensures { IfOk result (λ f. f ≡ forest_of roots.items (lists_of leaves.items)) }
{
    Forest::new(alloc, roots, leaves).map_err(|_| NoMemory)
}

/// How many roots each rank of a forest has.
pub(crate) fn roots_of(alloc: Global, forest: &Forest) -> Result<Vec<u32>, NoMemory>
    ensures roots { IfOk result (λ roots. roots.items ≡ forest.now.roots) }
    ensures right { OnOk result (IsForest forest.now) }
    ensures for_ranks { OnOk result (IsForRanks forest.now) }
{
    let mut roots = Vec::with_capacity(alloc, forest.ranks() as usize)?;
    for rank in 0..forest.ranks() {
        roots.push(forest.roots(rank))?;
    }
    Ok(roots)
}
