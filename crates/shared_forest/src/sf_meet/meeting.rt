//! Leaves that meet at their root.
ghost use Rattle.std.specs.Prelude.{◌≡◌, IfOk};
ghost use Rattle.plain_lists.specs.Vectors.{lists_of};
ghost use Rattle.sf_ops.specs.Asked.{CoverLeaves};
ghost use Rattle.sf_defs.specs.meeting.Meeting.{AreMet, HaveKeys};

use crate::sf_meet::least::least_on_ranks;
use crate::sf_meet::words::{copies, key_words};
use plex_base::NoMemory;
use sf_fabric::Fabric;
use sf_graph::Forest;
use sf_ops::slots::{gather, multi, scatter};
use std::alloc::Global;

/// The least id among the leaves of all ranks that lie on the same root and have the same key, for each
/// leaf at its local index; elsewhere the id that was there.
///
/// `keys` and `ids` have an entry at the local index of each leaf; the answer has the lengths of `ids`.
/// No round is kept. `NoMemory` comes for want of memory alone.
pub fn meet<F: Fabric>(
    alloc: Global,
    f: &Forest,
    keys: &[Vec<[u64; 2]>],
    ids: &[Vec<u64>],
    fabric: &mut F,
) -> Result<Vec<Vec<u64>>, NoMemory>
    requires keys { HaveKeys f.now (lists_of keys.now) }
    requires ids { CoverLeaves f.now (lists_of ids.now) }
    ensures met { IfOk result (λ met. AreMet f.now (lists_of keys.now) (lists_of ids.now) (lists_of met.items)) }
    ensures kept { F.kept fabric.new ≡ F.kept fabric.old }
{
    let slots = multi(alloc, f, fabric)?;
    // The leaves and their slots are a forest: the proof takes this from the call.
    let _ranks = slots.forest().ranks();
    let firsts = gather(alloc, &slots, &key_words(alloc, keys, 0)?, fabric)?;
    let seconds = gather(alloc, &slots, &key_words(alloc, keys, 1)?, fabric)?;
    let own = gather(alloc, &slots, ids, fabric)?;
    let least = least_on_ranks(alloc, f, &firsts, &seconds, &own)?;
    let mut met = copies(alloc, ids)?;
    scatter(alloc, &slots, &least, &mut met, fabric)?;
    Ok(met)
}
