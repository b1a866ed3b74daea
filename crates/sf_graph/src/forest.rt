//! A star forest that answers questions.
ghost use Rattle.std.specs.Prelude.{◌≡◌, ℕ, ◌+◌, ◌^◌, ◌<◌, [], None, Some, length, map, get_or, count_by, sum, sum_by, IfOk, IfErr, OnOk, slice_get, replicate};
ghost use Rattle.sf_defs.specs.Forest.{flaw, first_some, flaw_on, is_on_root, leaves_on, roots_on, root_of, degree, IsForest};
ghost use Rattle.sf_graph.specs.Faults.{IsFirstFault};
ghost use Rattle.plain_lists.specs.Vectors.{lists_of};
ghost use Rattle.sf_graph.specs.Parts.{forest_of, IsForRanks, IsKept};

use crate::degrees::{OwnCounts, count_leaves, no_counts};
use crate::fault::ForestFault;
use crate::own_leaves::OwnLeaves;
use sf_defs::Leaf;
use std::alloc::Global;
use std::marker::Model;

/// A star forest: for each rank, how many roots it has, and its leaves. After `PetscSF`.
#[derive(Debug, Drop)]
pub struct Forest {
    roots: Vec<u32>,
    leaves: Vec<OwnLeaves>,
    degrees: Vec<OwnCounts>,
}

impl Model for Forest {
    ghost use Rattle.sf_defs.specs.Forest.{Forest as Stars};
    ghost use Rattle.sf_graph.specs.Parts.{forest_of, IsKept};

    ghost Value = { Stars };

    ghost view = { λ f. forest_of f.roots.items f.leaves.items };

    ghost invariant = { λ f. IsKept (forest_of f.roots.items f.leaves.items) f.degrees.items };
}

impl Forest {
    /// A forest with so many roots on each rank, and these leaves (`PetscSFSetGraph`).
    ///
    /// There are 1 to 64 ranks, and all roots together are fewer than 2^32, as are all leaves.
    ///
    /// Leaves are tested by rank and place, and the first fault is answered: `RootRange` at a leaf
    /// whose root is not there, `LeafTwice` at a leaf whose local index an earlier one of the rank
    /// has. `NoMemory` comes for want of memory alone.
    pub fn new(
        alloc: Global,
        roots: Vec<u32>,
        leaves: Vec<Vec<Leaf>>,
    ) -> Result<Forest, ForestFault>
        requires { IsForRanks (forest_of roots.items (lists_of leaves.items)) }
        ensures ok { IfOk result (λ f. f ≡ forest_of roots.items (lists_of leaves.items)) }
        ensures right { OnOk result (IsForest (forest_of roots.items (lists_of leaves.items))) }
        ensures err { IfErr result (λ fault. IsFirstFault fault (flaw (forest_of roots.items (lists_of leaves.items)))) }
    {
        let mut degrees = no_counts(alloc, &roots)?;
        let leaves = find_leaves(alloc, &roots, leaves)?;
        count_all(&mut degrees, &leaves, &roots);
        Ok(Forest {
            roots,
            leaves,
            degrees,
        })
    }

    /// The number of ranks, 1 to 64.
    pub fn ranks(&self) -> u32
        ensures ranks { result ≡ length self.now.roots }
        ensures right { IsForest self.now }
        ensures for_ranks { IsForRanks self.now }
    {
        self.roots.len() as u32
    }

    /// How many roots a rank has.
    pub fn roots(&self, rank: u32) -> u32
        requires { rank < length self.now.roots }
        ensures { result ≡ roots_on self.now rank }
    {
        self.roots[rank as usize]
    }

    /// How many leaves a rank has.
    pub fn leaf_count(&self, rank: u32) -> u32
        requires { rank < length self.now.roots }
        ensures { result ≡ length (leaves_on self.now rank) }
    {
        self.leaves[rank as usize].len()
    }

    /// Leaf `i` of a rank.
    pub fn leaf(&self, rank: u32, i: u32) -> Leaf
        requires rank { rank < length self.now.roots }
        requires place { i < length (leaves_on self.now rank) }
        ensures { slice_get (leaves_on self.now rank) i ≡ Some result }
    {
        self.leaves[rank as usize].leaf(i)
    }

    /// The rank and index of the root of the leaf at a local index of a rank: `None` exactly where
    /// there is no leaf.
    #[tactic(auto, unfolding(sf_defs::specs::Forest::root_of))]
    pub fn root_of(&self, rank: u32, local: u32) -> Option<(u32, u32)>
        requires { rank < length self.now.roots }
        ensures { result ≡ root_of self.now rank local }
    {
        self.leaves[rank as usize].root_of(local)
    }

    /// How many leaves name a root (`PetscSFComputeDegreeBegin`).
    pub fn degree(&self, rank: u32, index: u32) -> u32
        requires rank { rank < length self.now.roots }
        requires place { index < roots_on self.now rank }
        ensures { result ≡ degree self.now rank index }
    {
        self.degrees[rank as usize].at(index)
    }
}

/// The leaves of all ranks, each found by its local index.
fn find_leaves(
    alloc: Global,
    roots: &[u32],
    leaves: Vec<Vec<Leaf>>,
) -> Result<Vec<OwnLeaves>, ForestFault>
    requires { IsForRanks (forest_of roots.now (lists_of leaves.items)) }
    ensures ok { IfOk result (λ found. found.items ≡ lists_of leaves.items) }
    ensures right { OnOk result (IsForest (forest_of roots.now (lists_of leaves.items))) }
    ensures err { IfErr result (λ fault. IsFirstFault fault (flaw (forest_of roots.now (lists_of leaves.items)))) }
{
    let mut found = Vec::with_capacity(alloc, leaves.len())?;
    for own in leaves {
        let rank = found.len() as u32;
        found.push(OwnLeaves::new(alloc, roots, rank, own)?)?;
    }
    Ok(found)
}

/// Counts the leaves of all ranks.
fn count_all(counts: &mut [OwnCounts], leaves: &[OwnLeaves], roots: &[u32])
    requires right { IsForest (forest_of roots.now leaves.now) }
    requires for_ranks { IsForRanks (forest_of roots.now leaves.now) }
    requires none { counts.old ≡ map (λ n. replicate n 0) roots.now }
    ensures { IsKept (forest_of roots.now leaves.now) counts.new }
{
    for own in leaves {
        count_leaves(counts, own.as_slice());
    }
}
