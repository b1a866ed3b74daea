ghost use Rattle.std.specs.Prelude.{◌≡◌, []};
ghost use Rattle.plex_base.specs.Dim.{dim_number};
ghost use Rattle.plex_chart.specs.Chart.{HasStrata, chart_size, stratum_range};

use mesh_defs::Poly;
use plex_base::Dim;
use std::ops::Range;

/// The dimension of a mesh, and how many points it has of each dimension.
#[derive(Clone, Copy, Debug)]
pub(crate) struct Strata {
    pub dim: Dim,
    pub cells: u32,
    pub vertices: u32,
    pub faces: u32,
    pub edges: u32,
}

impl Strata {
    ghost use Rattle.plex_chart.specs.Strata.{diagram_of, entries_if_alike};

    /// How many points all strata have room for.
    pub(crate) fn points(&self) -> usize
        ensures { result ≡ chart_size (diagram_of self.now []) }
    {
        self.cells as usize + self.vertices as usize + self.faces as usize + self.edges as usize
    }

    /// How many entries all cones have together, if every cell is of this polytope.
    pub(crate) fn entries_if_alike(&self, cell: Poly) -> usize
        ensures { result ≡ entries_if_alike self.now cell }
    {
        let cells = self.cells as usize;
        let faces = self.faces as usize;
        let edges = self.edges as usize;
        match cell {
            Poly::Vertex => 2 * edges,
            Poly::Segment => 2 * cells + 2 * edges,
            Poly::Triangle => 3 * cells + 2 * faces + 2 * edges,
            Poly::Quad => 4 * cells + 2 * faces + 2 * edges,
            Poly::Tet => 4 * cells + 3 * faces + 2 * edges,
            Poly::Hex => 6 * cells + 4 * faces + 2 * edges,
        }
    }

    /// The points of a dimension.
    pub(crate) fn range(&self, d: Dim) -> Range<u32>
        requires { HasStrata (diagram_of self.now []) }
        ensures start { result.start ≡ (stratum_range (diagram_of self.now []) (dim_number d)).0 }
        ensures end { result.end ≡ (stratum_range (diagram_of self.now []) (dim_number d)).1 }
    {
        if d.number() == self.dim.number() {
            return 0..self.cells;
        }
        let faces = self.cells + self.vertices;
        let edges = faces + self.faces;
        match d {
            Dim::Zero => self.cells..faces,
            Dim::One => edges..edges + self.edges,
            Dim::Two => faces..edges,
            Dim::Three => 0..0,
        }
    }
}
