//! Words of ranks, added up over the copies of each point.
ghost use Rattle.std.specs.Prelude.{◌≡◌, IfOk};
ghost use Rattle.plain_lists.specs.Vectors.{lists_of};
ghost use Rattle.sf_ops.specs.Asked.{AreRootValues, CoverLeaves};
ghost use Rattle.sf_defs.specs.sums.Sums.{AreSums, SumsFit};

use crate::{bcast, reduce};
use plex_base::NoMemory;
use sf_fabric::{Fabric, Op};
use sf_graph::Forest;
use std::alloc::Global;

/// The sum of the words of all copies of each point, at every copy, as after `DMLocalToGlobal` with
/// `ADD_VALUES` and `DMGlobalToLocal`.
///
/// Each place of a rank is a root of `forest`, and a leaf is a copy of the point at its root. `words` has
/// a word for each place, and the sums are below 2^64. No round is kept. `NoMemory` comes for want of
/// memory alone.
pub fn sum_copies<F: Fabric>(
    alloc: Global,
    forest: &Forest,
    words: &[Vec<u64>],
    fabric: &mut F,
) -> Result<Vec<Vec<u64>>, NoMemory>
    requires places { AreRootValues forest.now (lists_of words.now) }
    requires leaves { CoverLeaves forest.now (lists_of words.now) }
    requires fit { SumsFit forest.now (lists_of words.now) }
    ensures sums { IfOk result (λ sums. AreSums forest.now (lists_of words.now) (lists_of sums.items)) }
    ensures kept { F.kept fabric.new ≡ F.kept fabric.old }
{
    let mut at_roots = copies(alloc, words)?;
    // It is a forest: the proof takes this from the call.
    let _ranks = forest.ranks();
    reduce(alloc, forest, words, &mut at_roots, Op::Sum, fabric)?;
    let mut sums = copies(alloc, &at_roots)?;
    bcast(alloc, forest, &at_roots, &mut sums, fabric)?;
    Ok(sums)
}

/// The same lists again.
fn copies(alloc: Global, lists: &[Vec<u64>]) -> Result<Vec<Vec<u64>>, NoMemory>
    ensures { IfOk result (λ copies. lists_of copies.items ≡ lists_of lists.now) }
{
    let mut copies = Vec::with_capacity(alloc, lists.len())?;
    for list in lists {
        copies.push(Vec::from_slice(alloc, list)?)?;
    }
    Ok(copies)
}
