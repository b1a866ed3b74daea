//! Drawing slots.
ghost use Rattle.std.specs.Prelude.{◌≡◌, IfOk};
ghost use Rattle.sf_defs.specs.slots.Slots.{AreSlotsOf};

use crate::fetch_and_op;
use crate::slots::making::slots_drawn;
use crate::slots::slots::SlotForest;
use crate::slots::values::{ones, zeros};
use plex_base::NoMemory;
use sf_fabric::{Fabric, Op, Tag};
use sf_graph::Forest;
use std::alloc::Global;

/// One slot for each leaf (`PetscSFGetMultiSF`): the slots of a root are adjacent, and roots stand in
/// order. Which leaf has which slot of its root is drawn by fetch-and-`Sum`.
///
/// The round is not kept. It takes a word for each root, and on each rank one for each local index up
/// to its greatest leaf. `NoMemory` comes for want of memory alone.
pub fn multi<F: Fabric>(alloc: Global, a: &Forest, fabric: &mut F) -> Result<SlotForest, NoMemory>
    ensures slots { IfOk result (λ s. AreSlotsOf a.now s) }
    ensures kept { F.kept fabric.new ≡ F.kept fabric.old }
{
    let ones = ones(alloc, a)?;
    let mut drawn = zeros(alloc, a)?;
    let round = fetch_and_op(alloc, a, &ones, &mut drawn, Op::Sum, Tag::Free, fabric)?;
    slots_drawn(alloc, a, &round)
}
