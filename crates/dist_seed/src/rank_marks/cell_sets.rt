//! The cells of a rank by the sets of their vertices.

ghost use Rattle.std.specs.Prelude.{◌≡◌, ℕ, ◌≤◌, List, length, IfOk};
ghost use Rattle.std.specs.List.{list_any, AllByRecursion};
ghost use Rattle.plain_lists.specs.Lists.{same_list, same_set};
ghost use Rattle.mesh_defs.specs.Mesh.{Cell};
ghost use Rattle.rank_chart_laws.specs.mark_laws.Sets.{filled, IsShort};
ghost use Rattle.dist_seed.specs.rank_marks.Own.{AreShort, HasSets, some_on};

use crate::rank_cells::RankCells;
use indexmap::IndexSet;
use plex_base::NoMemory;
use std::alloc::Global;

/// Stands in the places behind the vertices of a set of fewer than eight.
const NO_VERTEX: u32 = 4_294_967_295;

/// The vertices of a cell in rising order, with `NO_VERTEX` behind them.
type Set = [u32; 8];

/// The sets of vertices of some cells.
#[derive(Drop)]
pub(crate) struct CellSets {
    pub(crate) sets: IndexSet<Set>,
}

/// The set of up to eight vertices.
fn set_on(vertices: &[u32]) -> Set
    requires { length vertices.now ≤ 8 }
    ensures { result ≡ filled vertices.now }
{
    let mut set = [NO_VERTEX; 8];
    set[..vertices.len()].copy_from_slice(vertices);
    set.sort_unstable();
    set
}

impl CellSets {
    /// The sets of these cells.
    pub(crate) fn of(alloc: Global, own: &RankCells) -> Result<CellSets, NoMemory>
        requires { AreShort own.now.cells }
        ensures { IfOk result (λ sets. HasSets own.now.cells sets.sets.keys) }
    {
        let mut sets = IndexSet::new(alloc);
        for i in 0..own.len() {
            sets.insert(set_on(own.corners(i)))?;
        }
        Ok(CellSets { sets })
    }

    /// Whether one of these cells is on these vertices, in any order.
    pub(crate) fn has(&self, own: &RankCells, vertices: &[u32]) -> bool
        requires sets { HasSets own.now.cells self.now.sets.keys }
        requires cells { AreShort own.now.cells }
        requires short { IsShort vertices.now }
        ensures { result ≡ some_on vertices.now own.now.cells }
    {
        self.sets.get_index_of(&set_on(vertices)).is_some()
    }
}
