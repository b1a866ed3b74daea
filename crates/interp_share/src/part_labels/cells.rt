//! The cells of a part, found again by their vertices.

ghost use Rattle.std.specs.Prelude.{◌≡◌, ℕ, ◌≤◌, [], length, position, IfOk, OnOk};
ghost use Rattle.plain_lists.specs.Lists.{same_set};
ghost use Rattle.mesh_defs.specs.Mesh.{Cell};
ghost use Rattle.rank_chart_laws.specs.mark_laws.Sets.{filled, IsShort};
ghost use Rattle.interp_share.specs.part_labels.Parts.{IsSomePart};
ghost use Rattle.interp_share.specs.part_labels.Sets.{IsTableOf, IsTableOrNone};

use dist_state::scatter_state::RankPart;
use indexmap::IndexSet;
use plex_base::NoMemory;
use std::alloc::Global;

/// Stands in the places behind the vertices of a set of fewer than eight.
const NO_VERTEX: u32 = 4_294_967_295;

/// The vertices of a cell in rising order, with `NO_VERTEX` behind them.
type Set = [u32; 8];

/// The cells of a part by the sets of their vertices, in their order; empty until the first is asked for.
#[derive(Drop)]
pub(crate) struct CellTable {
    pub(crate) sets: IndexSet<Set>,
}

/// The set of up to eight vertices.
fn set_on(vertices: &[u32]) -> Set
    requires { length vertices.now ≤ 8 }
    ensures { result ≡ filled vertices.now }
{
    let mut set = [NO_VERTEX; 8];
    set[..vertices.len()].copy_from_slice(vertices);
    set.sort_unstable();
    set
}

impl CellTable {
    /// A table in which no cell was found yet.
    pub(crate) fn new(alloc: Global) -> CellTable
        ensures { result.sets.keys ≡ [] }
    {
        CellTable {
            sets: IndexSet::new(alloc),
        }
    }

    /// Finds the set of each cell, where that was not done before.
    pub(crate) fn fill(&mut self, part: &RankPart) -> Result<(), NoMemory>
        requires given { IsSomePart part.now }
        requires table { IsTableOrNone part.now.cells self.old.sets.keys }
        ensures { OnOk result (IsTableOf part.now.cells self.new.sets.keys) }
    {
        if !self.sets.is_empty() {
            return Ok(());
        }
        for i in 0..part.cells().len() {
            self.sets.insert(set_on(part.corners(i)))?;
        }
        Ok(())
    }

    /// The place of the cell on these vertices, in any order.
    pub(crate) fn find(&self, part: &RankPart, vertices: &[u32]) -> Option<u32>
        requires given { IsSomePart part.now }
        requires table { IsTableOf part.now.cells self.now.sets.keys }
        requires short { IsShort vertices.now }
        ensures { result ≡ position (λ (c : ℕ × Cell). same_set vertices.now c.1.vertices) part.now.cells }
    {
        let place = self.sets.get_index_of(&set_on(vertices))?;
        Some(place as u32)
    }
}
