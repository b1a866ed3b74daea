//! The greatest of the words of all copies of a point.

ghost use Rattle.std.specs.Prelude.{◌≡◌, ◌^◌, ◌<◌, IfOk};
ghost use Rattle.std.specs.List.{AllByRecursion};
ghost use Rattle.plain_lists.specs.Vectors.{lists_of};
ghost use Rattle.sf_ops.specs.Asked.{AreRootValues, CoverLeaves};
ghost use Rattle.rank_cones.specs.arrangement_laws.Told.{AreGreatest};

use plex_base::NoMemory;
use sf_fabric::{Fabric, Op};
use sf_graph::Forest;
use sf_ops::{bcast, reduce};
use std::alloc::Global;

/// The greatest of the words of all copies of each point, at every copy.
///
/// Each place of a rank is a root of `forest`, and a leaf is a copy of the point at its root. `words` has a
/// word for each place. No round is kept. `NoMemory` comes for want of memory alone.
pub(crate) fn greatest_copies<F: Fabric>(
    alloc: Global,
    forest: &Forest,
    words: &[Vec<u64>],
    fabric: &mut F,
) -> Result<Vec<Vec<u64>>, NoMemory>
    requires places { AreRootValues forest.now (lists_of words.now) }
    requires leaves { CoverLeaves forest.now (lists_of words.now) }
    ensures greatest { IfOk result (λ greatest. AreGreatest forest.now (lists_of words.now) (lists_of greatest.items)) }
    ensures kept { F.kept fabric.new ≡ F.kept fabric.old }
{
    let mut at_roots = copies(alloc, words)?;
    reduce(alloc, forest, words, &mut at_roots, Op::Max, fabric)?;
    let mut greatest = copies(alloc, &at_roots)?;
    bcast(alloc, forest, &at_roots, &mut greatest, fabric)?;
    Ok(greatest)
}

/// The same lists again.
fn copies(alloc: Global, lists: &[Vec<u64>]) -> Result<Vec<Vec<u64>>, NoMemory>
    ensures same { IfOk result (λ copies. lists_of copies.items ≡ lists_of lists.now) }
    ensures low { IfOk result (λ copies. AllByRecursion (AllByRecursion (λ word. word < 2 ^ 64)) (lists_of copies.items)) }
{
    let mut copies = Vec::with_capacity(alloc, lists.len())?;
    for list in lists {
        copies.push(copy(alloc, list)?)?;
    }
    Ok(copies)
}

/// The same list again. Words are below 2^64.
fn copy(alloc: Global, list: &[u64]) -> Result<Vec<u64>, NoMemory>
    ensures same { IfOk result (λ copy. copy.items ≡ list.now) }
    ensures low { IfOk result (λ copy. AllByRecursion (λ word. word < 2 ^ 64) copy.items) }
{
    Ok(Vec::from_slice(alloc, list)?)
}
