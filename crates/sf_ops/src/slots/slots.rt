//! A forest whose roots are slots.
ghost use Rattle.std.specs.Prelude.{◌≡◌, ◌+◌, ◌<◌, [], get_or, length};
ghost use Rattle.sf_defs.specs.Forest.{IsForest};
ghost use Rattle.sf_graph.specs.Parts.{IsForRanks};
ghost use Rattle.sf_defs.specs.slots.Slots.{HasLoneLeaves};

use sf_graph::Forest;
use std::marker::Model;
use std::ops::Range;

/// The slots of the roots of a forest: as many as a root has leaves, and each leaf has one of its own.
/// After the multi-SF of PETSc.
#[derive(Debug, Drop)]
pub struct SlotForest {
    forest: Forest,
    firsts: Vec<Firsts>,
}

impl Model for SlotForest {
    ghost use Rattle.sf_defs.specs.slots.Slots.{Slots, HasLoneLeaves};

    ghost Value = { Slots };

    ghost view = { λ s. record { forest = s.forest; firsts = s.firsts.items } };

    ghost invariant = { λ s. HasLoneLeaves s.forest };
}

/// The first slot of each root of a rank, and behind them how many slots the rank has.
#[derive(Debug, Drop)]
pub(crate) struct Firsts {
    firsts: Vec<u32>,
}

impl Model for Firsts {
    ghost use Rattle.std.specs.Prelude.{ℕ, List};

    ghost Value = { List ℕ };

    ghost view = { λ own. own.firsts.items };
}

impl Firsts {
    pub(crate) fn of(firsts: Vec<u32>) -> Firsts
        ensures { result ≡ firsts.items }
    {
        Firsts { firsts }
    }

    pub(crate) fn at(&self, index: usize) -> u32
        requires { index < length self.now }
        ensures { result ≡ get_or self.now index 0 }
    {
        self.firsts[index]
    }
}

impl SlotForest {
    pub(crate) fn of(forest: Forest, firsts: Vec<Firsts>) -> SlotForest
        requires { HasLoneLeaves forest }
        ensures forest { result.forest ≡ forest }
        ensures firsts { result.firsts ≡ firsts.items }
    {
        SlotForest { forest, firsts }
    }

    /// The leaves, with the slots as their roots.
    pub fn forest(&self) -> &Forest
        ensures forest { result.now ≡ self.now.forest }
        ensures alone { HasLoneLeaves self.now.forest }
    {
        &self.forest
    }

    /// The slots of a root of the forest of which this was made, on the root's rank.
    pub fn slots(&self, rank: u32, index: u32) -> Range<u32>
        requires rank { rank < length self.now.firsts }
        requires root { index + 1 < length (get_or self.now.firsts rank []) }
        ensures start { result.start ≡ get_or (get_or self.now.firsts rank []) index 0 }
        ensures end { result.end ≡ get_or (get_or self.now.firsts rank []) (index + 1) 0 }
    {
        let firsts = &self.firsts[rank as usize];
        let index = index as usize;
        firsts.at(index)..firsts.at(index + 1)
    }
}
