//! The leaves of one rank.
ghost use Rattle.std.specs.Prelude.{◌≡◌, ℕ, ◌^◌, ◌<◌, [], None, Some, length, IfErr, IfOk, slice_get, MatchResult};
ghost use Rattle.sf_defs.specs.Forest.{flaw_on, has_root};
ghost use Rattle.sf_graph.specs.Parts.{own_root};
ghost use Rattle.sf_graph.specs.Faults.{IsFirstFault};

use crate::fault::ForestFault;
use sf_defs::Leaf;
use std::alloc::Global;
use std::collections::HashMap;
use std::marker::Model;

/// The leaves of one rank in their order, and the root of each by its local index.
#[derive(Debug, Drop)]
pub(crate) struct OwnLeaves {
    leaves: Vec<Leaf>,
    roots: HashMap<u32, (u32, u32)>,
}

impl Model for OwnLeaves {
    ghost use Rattle.std.specs.Prelude.{List};
    ghost use Rattle.sf_defs.specs.declared.Leaf.{Leaf};

    ghost Value = { List Leaf };

    ghost view = { λ own. own.leaves.items };

    ghost use Rattle.std.specs.Prelude.{◌≡◌, ◌^◌, ◌<◌, ℕ, nat_eq, length};
    ghost use Rattle.std.specs.HashMap as hash;
    ghost use Rattle.sf_graph.specs.Parts.{own_root};

    ghost invariant = { λ own. (length own.leaves.items < 2 ^ 32) × ((local : ℕ) → hash.get nat_eq own.roots local ≡ own_root own.leaves.items local) };
}

impl OwnLeaves {
    /// The leaves of `rank`, in a forest with so many roots on each rank.
    pub(crate) fn new(
        alloc: Global,
        roots: &[u32],
        rank: u32,
        leaves: Vec<Leaf>,
    ) -> Result<OwnLeaves, ForestFault>
        requires { length leaves.items < 2 ^ 32 }
        ensures ok { IfOk result (λ own. (own ≡ leaves.items) × (flaw_on roots.now rank [] 0 leaves.items ≡ None)) }
        ensures err { IfErr result (λ fault. IsFirstFault fault (flaw_on roots.now rank [] 0 leaves.items)) }
    {
        let mut by_local = HashMap::new(alloc);
        for i in 0..leaves.len() {
            let leaf = leaves[i];
            if !has_root(roots, leaf) {
                return Err(ForestFault::RootRange {
                    rank,
                    leaf: i as u32,
                });
            }
            if by_local
                .insert(leaf.local, (leaf.rank, leaf.index))?
                .is_some()
            {
                return Err(ForestFault::LeafTwice {
                    rank,
                    local: leaf.local,
                });
            }
        }
        Ok(OwnLeaves {
            leaves,
            roots: by_local,
        })
    }

    pub(crate) fn len(&self) -> u32
        ensures { result ≡ length self.now }
    {
        self.leaves.len() as u32
    }

    pub(crate) fn leaf(&self, i: u32) -> Leaf
        requires { i < length self.now }
        ensures { slice_get self.now i ≡ Some result }
    {
        self.leaves[i as usize]
    }

    /// All leaves in their order.
    pub(crate) fn as_slice(&self) -> &[Leaf]
        ensures { result.now ≡ self.now }
    {
        &self.leaves
    }

    /// The root of the leaf at a local index.
    pub(crate) fn root_of(&self, local: u32) -> Option<(u32, u32)>
        ensures { result ≡ own_root self.now local }
    {
        self.roots.get(&local).copied()
    }
}

/// Whether the leaf names a root that is there.
fn has_root(roots: &[u32], leaf: Leaf) -> bool
    ensures { result ≡ has_root roots.now leaf }
{
    match roots.get(leaf.rank as usize) {
        Some(roots) => leaf.index < *roots,
        None => false,
    }
}
