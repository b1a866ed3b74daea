//! Reduction.
ghost use Rattle.std.specs.Prelude.{◌≡◌, ◌≢◌, ℕ, ◌<◌, length, get_or, OnOk, OnErr};
ghost use Rattle.plain_lists.specs.Vectors.{lists_of};
ghost use Rattle.sf_ops.specs.Asked.{asks_of, words_of, AreRootValues, CoverLeaves, MayAsk};
ghost use Rattle.sf_ops.specs.Folds.{AreFolds};
ghost use Rattle.sf_defs.specs.declared.Op.TheVariants.{Load};

use crate::fetch::fetch_and_op;
use plex_base::NoMemory;
use sf_fabric::{Fabric, Op, Tag};
use sf_graph::Forest;
use std::alloc::Global;

/// Combines each root's word with its leaves' words by `op` (`PetscSFReduceBegin`), whatever the order
/// in which they come. No root's word becomes anything else.
///
/// The conditions are those of [`fetch_and_op`](crate::fetch_and_op), and `op` is not `Load`. The
/// round is not kept. For want of memory nothing is changed.
pub fn reduce<F: Fabric>(
    alloc: Global,
    forest: &Forest,
    leaves: &[Vec<u64>],
    roots: &mut [Vec<u64>],
    op: Op,
    fabric: &mut F,
) -> Result<(), NoMemory>
    requires changes { op ≢ Load }
    requires roots { AreRootValues forest.now (lists_of roots.old) }
    requires leaves { CoverLeaves forest.now (lists_of leaves.now) }
    requires asks { MayAsk forest.now op (lists_of leaves.now) (lists_of roots.old) }

    ensures folds { OnOk result (AreFolds (asks_of forest.now op (lists_of leaves.now)) (words_of (lists_of roots.old)) (words_of (lists_of roots.new))) }
    ensures shape { AreRootValues forest.now (lists_of roots.new) }
    ensures kept { F.kept fabric.new ≡ F.kept fabric.old }
    ensures no_memory { OnErr result (lists_of roots.new ≡ lists_of roots.old) }
{
    fetch_and_op(alloc, forest, leaves, roots, op, Tag::Free, fabric)?;
    Ok(())
}
