//! Words to slots and back.
ghost use Rattle.std.specs.Prelude.{◌≡◌, length, map, IfOk, OnOk, OnErr};
ghost use Rattle.plain_lists.specs.Vectors.{lists_of};
ghost use Rattle.sf_ops.specs.Asked.{AreRootValues, CoverLeaves};
ghost use Rattle.sf_ops.specs.Copies.{AreCopies};
ghost use Rattle.sf_ops.specs.slots.Gathered.{gathered};

use crate::slots::slots::SlotForest;
use crate::slots::values::zeros;
use crate::{bcast, reduce};
use plex_base::NoMemory;
use sf_fabric::{Fabric, Op};
use std::alloc::Global;

/// Each slot gets its leaf's word (`PetscSFGatherBegin`): the words of the slots by rank.
///
/// `leaves` has a word at the local index of each leaf. The round is not kept. `NoMemory` comes for want
/// of memory alone.
pub fn gather<F: Fabric>(
    alloc: Global,
    m: &SlotForest,
    leaves: &[Vec<u64>],
    fabric: &mut F,
) -> Result<Vec<Vec<u64>>, NoMemory>
    requires { CoverLeaves m.now.forest (lists_of leaves.now) }
    ensures gathered { IfOk result (λ slots. lists_of slots.items ≡ gathered m.now.forest (lists_of leaves.now)) }
    ensures slots { IfOk result (λ slots. AreRootValues m.now.forest (lists_of slots.items)) }
    ensures kept { F.kept fabric.new ≡ F.kept fabric.old }
{
    let mut slots = zeros(alloc, m.forest())?;
    reduce(alloc, m.forest(), leaves, &mut slots, Op::Replace, fabric)?;
    Ok(slots)
}

/// Each leaf's place gets its slot's word (`PetscSFScatterBegin`), every other place stays.
///
/// `slots` has a word for each slot, `leaves` one at the local index of each leaf. The round is not kept.
/// For want of memory nothing is changed.
pub fn scatter<F: Fabric>(
    alloc: Global,
    m: &SlotForest,
    slots: &[Vec<u64>],
    leaves: &mut [Vec<u64>],
    fabric: &mut F,
) -> Result<(), NoMemory>
    requires slots { AreRootValues m.now.forest (lists_of slots.now) }
    requires leaves { CoverLeaves m.now.forest (lists_of leaves.old) }
    ensures copies { OnOk result (AreCopies m.now.forest (lists_of slots.now) (lists_of leaves.old) (lists_of leaves.new)) }
    ensures shape { map length (lists_of leaves.new) ≡ map length (lists_of leaves.old) }
    ensures kept { F.kept fabric.new ≡ F.kept fabric.old }
    ensures no_memory { OnErr result (lists_of leaves.new ≡ lists_of leaves.old) }
{
    bcast(alloc, m.forest(), slots, leaves, fabric)
}
