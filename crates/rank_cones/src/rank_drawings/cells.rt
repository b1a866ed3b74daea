//! The cells of a rank as a list of cells.

ghost use Rattle.std.specs.Prelude.{◌<◌, ◌^◌, length};
ghost use Rattle.dist_state.specs.shared_state.Points.{shared_at};

use dist_state::shared_state::Shared;
use local_points::CellList;
use mesh_defs::Poly;

/// The cells of one rank.
#[derive(Drop)]
pub(crate) struct RankCells<'a> {
    pub(crate) shared: &'a Shared,
    pub(crate) rank: u32,
    pub(crate) ghost inside: { rank < length shared.now.parts },
    pub(crate) ghost few: { length (shared_at shared.now.parts rank).cells < 2 ^ 32 },
}

impl<'a> CellList for RankCells<'a> {
    ghost cells = { λ own. (shared_at own.shared.now.parts own.rank).cells };

    fn len(&self) -> usize {
        self.shared.cells(self.rank).len()
    }

    fn number(&self, i: usize) -> u32 {
        self.shared.cells(self.rank)[i]
    }

    fn poly(&self, i: usize) -> Poly {
        self.shared.poly(self.rank, i as u32)
    }

    fn corners(&self, i: usize) -> &[u32] {
        self.shared.list(self.rank, i as u32)
    }
}
