//! The slots that leaves drew.
ghost use Rattle.std.specs.Prelude.{◌≡◌, ℕ, ◌+◌, ◌^◌, ◌<◌, ◌≤◌, [], length, map, get_or, zip, IfOk, OnOk};
ghost use Rattle.std.specs.List.{AllByRecursion};
ghost use Rattle.sf_defs.specs.declared.Leaf.{Leaf as Plain};
ghost use Rattle.sf_defs.specs.Forest.{degree, leaves_on, roots_on, IsForest};
ghost use Rattle.sf_graph.specs.Parts.{forest_of, IsForRanks};
ghost use Rattle.plain_lists.specs.Vectors.{lists_of};
ghost use Rattle.sf_defs.specs.slots.Slots.{first_slot, first_slots, first_slots_on, slot_counts, slot_leaf, slot_leaves, slotted, AreDraws, AreSlotsOf};

use crate::slots::slots::{Firsts, SlotForest};
use plex_base::NoMemory;
use sf_fabric::Round;
use sf_graph::{Forest, Leaf};
use std::alloc::Global;

/// The slots that the leaves drew in a round.
pub(crate) fn slots_drawn(alloc: Global, a: &Forest, round: &Round) -> Result<SlotForest, NoMemory>
    requires { AreDraws a.now round.now.got }
    ensures { IfOk result (λ s. AreSlotsOf a.now s) }
{
    let firsts = first_slots(alloc, a)?;
    let roots = slot_counts(alloc, a, &firsts)?;
    let leaves = leaves_on_slots(alloc, a, &firsts, round)?;
    let forest = made_of(alloc, roots, leaves)?;
    Ok(SlotForest::of(forest, firsts))
}

/// The forest of these lists.
fn made_of(alloc: Global, roots: Vec<u32>, leaves: Vec<Vec<Leaf>>) -> Result<Forest, NoMemory>
    requires { IsForRanks (forest_of roots.items (lists_of leaves.items)) }
    ensures { IfOk result (λ f. f ≡ forest_of roots.items (lists_of leaves.items)) }
{
    Forest::new(alloc, roots, leaves).map_err(|_| NoMemory)
}

/// How many slots each rank has.
fn slot_counts(alloc: Global, a: &Forest, firsts: &[Firsts]) -> Result<Vec<u32>, NoMemory>
    requires { firsts.now ≡ first_slots a.now }
    ensures counts { IfOk result (λ counts. counts.items ≡ slot_counts a.now) }
    ensures for_ranks { OnOk result (IsForRanks a.now) }
{
    let mut counts = Vec::with_capacity(alloc, a.ranks() as usize)?;
    for rank in 0..a.ranks() {
        let behind = a.roots(rank) as usize;
        let count = firsts[rank as usize].at(behind);
        counts.push(count)?;
    }
    Ok(counts)
}

/// The leaves of all ranks on the slots that they drew.
fn leaves_on_slots(
    alloc: Global,
    a: &Forest,
    firsts: &[Firsts],
    round: &Round,
) -> Result<Vec<Vec<Leaf>>, NoMemory>
    requires draws { AreDraws a.now round.now.got }
    requires firsts { firsts.now ≡ first_slots a.now }
    ensures { IfOk result (λ leaves. lists_of leaves.items ≡ (slotted a.now round.now.got).leaves) }
{
    let mut leaves = Vec::with_capacity(alloc, a.ranks() as usize)?;
    for rank in 0..a.ranks() {
        leaves.push(slot_leaves(alloc, a, rank, firsts, round.got(rank))?)?;
    }
    Ok(leaves)
}

/// Where the slots of each root begin.
fn first_slots(alloc: Global, a: &Forest) -> Result<Vec<Firsts>, NoMemory>
    ensures { IfOk result (λ firsts. firsts.items ≡ first_slots a.now) }
{
    let mut firsts = Vec::with_capacity(alloc, a.ranks() as usize)?;
    for rank in 0..a.ranks() {
        firsts.push(first_slots_on(alloc, a, rank)?)?;
    }
    Ok(firsts)
}

/// Where the slots of each root of a rank begin, and how many there are.
fn first_slots_on(alloc: Global, a: &Forest, rank: u32) -> Result<Firsts, NoMemory>
    requires rank { rank < length a.now.roots }
    requires for_ranks { IsForRanks a.now }
    ensures { IfOk result (λ own. own ≡ first_slots_on a.now rank (roots_on a.now rank)) }
{
    let mut firsts = Vec::with_capacity(alloc, a.roots(rank) as usize + 1)?;
    let mut first = 0;
    for index in 0..a.roots(rank) {
        firsts.push(first)?;
        first += a.degree(rank, index);
    }
    firsts.push(first)?;
    Ok(Firsts::of(firsts))
}

/// The leaves of a rank, each on the slot of its root that it drew.
fn slot_leaves(
    alloc: Global,
    a: &Forest,
    rank: u32,
    firsts: &[Firsts],
    drawn: &[u64],
) -> Result<Vec<Leaf>, NoMemory>
    requires rank { rank < length a.now.roots }
    requires right { IsForest a.now }
    requires for_ranks { IsForRanks a.now }
    requires firsts { firsts.now ≡ first_slots a.now }
    requires count { length drawn.now ≡ length (leaves_on a.now rank) }
    requires within { AllByRecursion (λ (x : Plain × ℕ). x.1 < degree a.now x.0.rank x.0.index) (zip (leaves_on a.now rank) drawn.now) }
    ensures { IfOk result (λ own. own.items ≡ slot_leaves a.now (leaves_on a.now rank) drawn.now) }
{
    let mut own = Vec::with_capacity(alloc, drawn.len())?;
    for i in 0..a.leaf_count(rank) {
        let leaf = a.leaf(rank, i);
        let first = firsts[leaf.rank as usize].at(leaf.index as usize);
        own.push(Leaf {
            local: leaf.local,
            rank: leaf.rank,
            index: first + drawn[i as usize] as u32,
        })?;
    }
    Ok(own)
}
