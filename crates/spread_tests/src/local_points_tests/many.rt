ghost use Rattle.std.specs.Prelude.{◌≤◌};
ghost use Rattle.spread_tests.specs.local_points_tests.Stacks.{stack};

use crate::local_points_tests::pairs::edge;
use local_points::{CellList, PointFinder};
use mesh_defs::Poly;
use plex_base::PointKey;
use std::test::Fail;

/// Quadrilaterals on the same four vertices, numbered from 0.
#[derive(Drop)]
struct Stack {
    count: usize,
    corners: [u32; 4],
    ghost few: { count ≤ 250000 },
}

#[tactic(auto, using(crate::proofs::local_points_tests::Stacks::stack_length, crate::proofs::local_points_tests::Stacks::stack_at))]
impl CellList for Stack {
    ghost cells = { λ s. stack s.count s.corners };

    fn len(&self) -> usize {
        self.count
    }

    fn number(&self, i: usize) -> u32 {
        i as u32
    }

    fn poly(&self, _i: usize) -> Poly {
        Poly::Quad
    }

    fn corners(&self, _i: usize) -> &[u32] {
        &self.corners
    }
}

/// So many cells are listed by several threads.
#[test]
fn many_cells_are_listed_side_by_side(rt: HostRuntime) -> Result<(), Fail> {
    let cells = Stack {
        count: 20000,
        corners: [0, 1, 2, 3],
    };
    let finder = PointFinder::of(&rt, rt.alloc(), &cells)?;
    let points = finder.local();
    assert_eq!(rt; (points.faces(), points.edges()), (0, 4));
    assert_eq!(rt; edge(points, 3), Some((PointKey(11), [3, 0])));
    Ok(())
}
