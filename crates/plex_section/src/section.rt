//! The layout of words on points.
ghost use Rattle.std.specs.Prelude.{◌≡◌, ◌^◌, ◌<◌, length, sum, slice_index, IfOk};
ghost use Rattle.plex_defs.specs.Fields.{offset};

use plex_base::NoMemory;
use std::alloc::Global;
use std::marker::Model;

/// How many words each point has, after PetscSection. The words of a point stand after those of the
/// points before it. Contracts see it as the list of these numbers.
#[derive(Debug, Drop)]
pub struct Section {
    /// Where the words of each point begin, and one place more, where the last ones end.
    offsets: Vec<u32>,
}

impl Model for Section {
    ghost use Rattle.std.specs.Prelude.{◌≡◌, ℕ, List};
    ghost use Rattle.plex_section.specs.Starts.{starts, gaps};

    ghost Value = { List ℕ };

    ghost view = { λ s. gaps s.offsets.items };

    ghost invariant = { λ s. s.offsets.items ≡ starts (gaps s.offsets.items) };
}

impl Section {
    /// The layout in which point `p` has `dofs[p]` words (`PetscSectionSetDof`, `PetscSectionSetUp`).
    /// All words together are fewer than 2^32.
    ///
    /// Fails only for want of memory.
    pub fn layout(alloc: Global, dofs: &[u32]) -> Result<Section, NoMemory>
        requires { sum dofs.now < 2 ^ 32 }
        ensures { IfOk result (λ s. s ≡ dofs.now) }
    {
        let mut offsets = Vec::with_capacity(alloc, dofs.len() + 1)?;
        let mut end = 0;
        offsets.push(end)?;
        for dof in dofs {
            end += *dof;
            offsets.push(end)?;
        }
        Ok(Section { offsets })
    }

    /// Where the words of a point begin: `PetscSectionGetOffset`. Takes no memory.
    pub fn offset(&self, p: u32) -> u32
        requires { p < length self.now }
        ensures { result ≡ offset self.now p }
    {
        self.offsets[p as usize]
    }

    /// How many words a point has: `PetscSectionGetDof`. Takes no memory.
    pub fn dof(&self, p: u32) -> u32
        requires { p < length self.now }
        ensures { result ≡ slice_index self.now p }
    {
        self.offsets[p as usize + 1] - self.offsets[p as usize]
    }

    /// How many words there are: `PetscSectionGetStorageSize`. Takes no memory.
    pub fn size(&self) -> u32
        ensures { result ≡ sum self.now }
    {
        self.offsets[self.offsets.len() - 1]
    }
}
