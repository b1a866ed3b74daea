//! How many leaves name each root.
ghost use Rattle.std.specs.Prelude.{◌≡◌, ℕ, ◌+◌, ◌^◌, ◌<◌, length, map, get_or, set, count_by, replicate, IfOk, IfErr};
ghost use Rattle.std.specs.List.{AllByRecursion};
ghost use Rattle.sf_graph.specs.declared.fault.ForestFault.TheVariants.{NoMemory};
ghost use Rattle.sf_defs.specs.Forest.{is_on_root};
ghost use Rattle.sf_graph.specs.Parts.{count_at, HasCount};

use crate::fault::ForestFault;
use sf_defs::Leaf;
use std::alloc::Global;
use std::marker::Model;

/// A number for each root of one rank.
#[derive(Debug, Drop)]
pub(crate) struct OwnCounts {
    counts: Vec<u32>,
}

impl Model for OwnCounts {
    ghost use Rattle.std.specs.Prelude.{ℕ, List};

    ghost Value = { List ℕ };

    ghost view = { λ own. own.counts.items };
}

impl OwnCounts {
    /// The number of a root.
    pub(crate) fn at(&self, index: u32) -> u32
        requires { index < length self.now }
        ensures { result ≡ get_or self.now index 0 }
    {
        self.counts[index as usize]
    }

    /// One more for a root.
    fn count(&mut self, index: u32)
        requires place { index < length self.old }
        requires fits { get_or self.old index 0 + 1 < 2 ^ 32 }
        ensures { self.new ≡ set self.old index (get_or self.old index 0 + 1) }
    {
        self.counts[index as usize] += 1;
    }
}

/// 0 for each root of each rank.
pub(crate) fn no_counts(alloc: Global, roots: &[u32]) -> Result<Vec<OwnCounts>, ForestFault>
    ensures ok { IfOk result (λ counts. counts.items ≡ map (λ n. replicate n 0) roots.now) }
    ensures err { IfErr result (λ fault. fault ≡ NoMemory) }
{
    let mut all = Vec::with_capacity(alloc, roots.len())?;
    for own in roots {
        let counts = vec![in alloc; 0u32; *own as usize]?;
        all.push(OwnCounts { counts })?;
    }
    Ok(all)
}

/// Counts these leaves for their roots.
pub(crate) fn count_leaves(counts: &mut [OwnCounts], leaves: &[Leaf])
    requires places { AllByRecursion (HasCount counts.old) leaves.now }
    requires fits { (rank index : ℕ) → count_at counts.old rank index + length leaves.now < 2 ^ 32 }
    ensures shape { map length counts.new ≡ map length counts.old }
    ensures counted { (rank index : ℕ) → count_at counts.new rank index ≡ count_at counts.old rank index + count_by (is_on_root (rank, index)) leaves.now }
{
    for leaf in leaves {
        counts[leaf.rank as usize].count(leaf.index);
    }
}
