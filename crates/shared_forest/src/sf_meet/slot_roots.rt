//! The roots that slots stand at.
ghost use Rattle.std.specs.Prelude.{◌<◌, length, IfOk};
ghost use Rattle.sf_defs.specs.Forest.{roots_on};
ghost use Rattle.shared_forest.specs.sf_meet.SlotRoots.{AreSlotRoots};

use plex_base::NoMemory;
use sf_graph::Forest;
use std::alloc::Global;

/// For each slot of a rank the index of its root.
pub(crate) fn slot_roots(alloc: Global, f: &Forest, rank: u32) -> Result<Vec<u32>, NoMemory>
    requires { rank < length f.now.roots }
    ensures { IfOk result (λ roots. AreSlotRoots f.now rank (roots_on f.now rank) roots.items) }
{
    let mut roots = Vec::new(alloc);
    for index in 0..f.roots(rank) {
        let count = roots.len() + f.degree(rank, index) as usize;
        roots.resize(count, index)?;
    }
    Ok(roots)
}
