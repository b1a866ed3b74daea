//! What a rank is given as a list of cells.
use dist_state::scatter_state::RankPart;
use local_points::CellList;
use mesh_defs::Poly;

/// The cells that a rank is given, as a list of cells.
#[derive(Drop)]
pub struct PartCells<'a> {
    pub part: &'a RankPart,
}

impl<'a> CellList for PartCells<'a> {
    ghost cells = { λ own. own.part.now.cells };

    fn len(&self) -> usize {
        self.part.cells().len()
    }

    fn number(&self, i: usize) -> u32 {
        self.part.cells()[i]
    }

    fn poly(&self, i: usize) -> Poly {
        self.part.poly(i)
    }

    fn corners(&self, i: usize) -> &[u32] {
        self.part.corners(i)
    }
}
