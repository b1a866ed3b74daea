//! Which leaf is on which root.
ghost use Rattle.std.specs.Prelude.{◌≡◌, ℕ, ◌+◌, ◌^◌, ◌<◌, [], None, Some, length, map, get_or, set, find, filter_map, option_map, replicate, IfOk};
ghost use Rattle.plain_lists.specs.Lists.{below};
ghost use Rattle.sf_defs.specs.declared.Leaf.{Leaf as Plain};
ghost use Rattle.sf_defs.specs.Forest.{is_on_root, leaf, leaves_on, or_else, IsForest};
ghost use Rattle.sf_graph.specs.Parts.{IsForRanks};

use plex_base::NoMemory;
use sf_graph::{Forest, Leaf};
use std::alloc::Global;
use std::marker::Model;

/// The first leaf on each root of one rank, by its rank and local index.
#[derive(Debug, Drop)]
pub(crate) struct RootLeaves {
    leaves: Vec<Option<(u32, u32)>>,
}

impl Model for RootLeaves {
    ghost use Rattle.std.specs.Prelude.{◌^◌, ◌<◌, ℕ, List, Option, length};

    ghost Value = { List (Option (ℕ × ℕ)) };

    ghost view = { λ own. own.leaves.items };

    ghost invariant = { λ own. length own.leaves.items < 2 ^ 32 };
}

impl RootLeaves {
    /// No leaf on any of so many roots.
    fn none(alloc: Global, roots: u32) -> Result<RootLeaves, NoMemory>
        ensures { IfOk result (λ own. own ≡ replicate roots None) }
    {
        let mut leaves = Vec::with_capacity(alloc, roots as usize)?;
        for _ in 0..roots {
            leaves.push(None)?;
        }
        Ok(RootLeaves { leaves })
    }

    /// Remembers a leaf on a root, where there is none yet.
    fn note(&mut self, index: u32, rank: u32, local: u32)
        requires { index < length self.old }
        ensures { self.new ≡ set self.old index (or_else (get_or self.old index None) (Some (rank, local))) }
    {
        let leaf = &mut self.leaves[index as usize];
        if leaf.is_none() {
            *leaf = Some((rank, local));
        }
    }

    /// The roots with a leaf as leaves, and those leaves as their roots.
    pub(crate) fn turned(&self, alloc: Global) -> Result<Vec<Leaf>, NoMemory>
        ensures { IfOk result (λ own. own.items ≡ filter_map (λ i. option_map (leaf i) (get_or self.now i None)) (below (length self.now))) }
    {
        let mut own = Vec::new(alloc);
        for i in 0..self.leaves.len() {
            if let Some((rank, index)) = self.leaves[i] {
                own.push(Leaf {
                    local: i as u32,
                    rank,
                    index,
                })?;
            }
        }
        Ok(own)
    }
}

/// No leaf on any root.
pub(crate) fn no_leaves(alloc: Global, forest: &Forest) -> Result<Vec<RootLeaves>, NoMemory>
    ensures { IfOk result (λ found. found.items ≡ map (λ n. replicate n None) forest.now.roots) }
{
    let mut found = Vec::with_capacity(alloc, forest.ranks() as usize)?;
    for rank in 0..forest.ranks() {
        found.push(RootLeaves::none(alloc, forest.roots(rank))?)?;
    }
    Ok(found)
}

/// Remembers the leaves of a rank.
pub(crate) fn note_leaves(found: &mut [RootLeaves], forest: &Forest, rank: u32)
    requires shape { map length found.old ≡ forest.now.roots }
    requires rank { rank < length forest.now.roots }
    requires right { IsForest forest.now }
    requires for_ranks { IsForRanks forest.now }
    ensures shape { map length found.new ≡ forest.now.roots }
    ensures noted { (to index : ℕ) → get_or (get_or found.new to []) index None ≡ or_else (get_or (get_or found.old to []) index None) (option_map (λ (l : Plain). (rank, l.local)) (find (is_on_root (to, index)) (leaves_on forest.now rank))) }
{
    for i in 0..forest.leaf_count(rank) {
        let leaf = forest.leaf(rank, i);
        found[leaf.rank as usize].note(leaf.index, rank, leaf.local);
    }
}
