//! Composition.
ghost use Rattle.std.specs.Prelude.{◌≡◌, ◌<◌, length, filter_map, IfOk};
ghost use Rattle.sf_defs.specs.Forest.{compose, leaves_on, through, IsForest};
ghost use Rattle.sf_graph.specs.Parts.{IsForRanks};

use crate::made::{made_of, roots_of};
use plex_base::NoMemory;
use sf_graph::{Forest, Leaf};
use std::alloc::Global;

/// First `b` and then `a` (`PetscSFCompose`): the roots of `a`, and the leaves of `b` in their order.
/// A leaf of `b` whose root is no leaf of `a` falls away.
///
/// Both have equally many ranks. `NoMemory` comes for want of memory alone.
pub fn compose(alloc: Global, a: &Forest, b: &Forest) -> Result<Forest, NoMemory>
    requires { length a.now.roots ≡ length b.now.roots }
    ensures { IfOk result (λ f. f ≡ compose a.now b.now) }
{
    let mut leaves = Vec::with_capacity(alloc, b.ranks() as usize)?;
    for rank in 0..b.ranks() {
        leaves.push(leaves_through(alloc, a, b, rank)?)?;
    }
    made_of(alloc, roots_of(alloc, a)?, leaves)
}

/// The leaves of a rank of `b` with the roots that they reach through `a`.
fn leaves_through(alloc: Global, a: &Forest, b: &Forest, rank: u32) -> Result<Vec<Leaf>, NoMemory>
    requires ranks { length a.now.roots ≡ length b.now.roots }
    requires rank { rank < length b.now.roots }
    requires right { IsForest b.now }
    requires for_ranks { IsForRanks b.now }
    ensures { IfOk result (λ own. own.items ≡ filter_map (through a.now) (leaves_on b.now rank)) }
{
    let mut own = Vec::new(alloc);
    for i in 0..b.leaf_count(rank) {
        if let Some(leaf) = through(a, b.leaf(rank, i)) {
            own.push(leaf)?;
        }
    }
    Ok(own)
}

/// The leaf with the root that its own root, a leaf of `a`, has there.
fn through(a: &Forest, leaf: Leaf) -> Option<Leaf>
    requires { leaf.rank < length a.now.roots }
    ensures { result ≡ through a.now leaf }
{
    let (rank, index) = a.root_of(leaf.rank, leaf.index)?;
    Some(Leaf {
        local: leaf.local,
        rank,
        index,
    })
}
