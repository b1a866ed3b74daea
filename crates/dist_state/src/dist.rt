//! What all ranks hold.
ghost use Rattle.std.specs.Prelude.{◌≡◌, ◌<◌, length, Some};
ghost use Rattle.std.specs.List.{slice_get};
ghost use Rattle.sf_defs.specs.Forest.{IsForest};
ghost use Rattle.sf_graph.specs.Parts.{IsForRanks};
ghost use Rattle.dist_state.specs.Whole.{IsWholeDist};

use crate::rank_mesh::RankMesh;
use sf_graph::Forest;
use std::marker::Model;

/// A mesh spread over ranks, after a distributed `DMPlex` with its point `PetscSF`: what each rank
/// holds, and the forest of shared points. No call takes memory.
#[derive(Debug, Drop)]
pub struct Dist {
    cells: u32,
    overlap: u32,
    sections: u32,
    points: Forest,
    locals: Vec<RankMesh>,
}

impl Model for Dist {
    ghost use Rattle.rank_defs.specs.Spread.{PlainDist};
    ghost use Rattle.dist_state.specs.Whole.{IsWholeDist};

    ghost Value = { PlainDist };

    ghost view = { λ d. record { cells = d.cells; overlap = d.overlap; sections = d.sections; points = d.points; locals = d.locals.items } };

    ghost invariant = { λ d. IsWholeDist (record { cells = d.cells; overlap = d.overlap; sections = d.sections; points = d.points; locals = d.locals.items }) };
}

impl Dist {
    /// A mesh of so many cells in all, with so many layers of overlap, whose first so many fields are
    /// data sections. The leaves of the forest are the ghosts of each rank, and its roots the local
    /// points of their owners.
    ///
    /// There are as many local meshes as the forest has ranks. All have the same number of fields, at
    /// least as many as there are data sections. Takes no memory.
    pub fn of(
        cells: u32,
        overlap: u32,
        sections: u32,
        points: Forest,
        locals: Vec<RankMesh>,
    ) -> Dist
        requires { IsWholeDist (record { cells = cells; overlap = overlap; sections = sections; points = points; locals = locals.items }) }
        ensures { result ≡ record { cells = cells; overlap = overlap; sections = sections; points = points; locals = locals.items } }
    {
        Dist {
            cells,
            overlap,
            sections,
            points,
            locals,
        }
    }

    /// The number of ranks, 1 to 64.
    pub fn ranks(&self) -> u32
        ensures ranks { result ≡ length self.now.locals }

        // What every distribution keeps.
        ensures whole { IsWholeDist self.now }
        ensures right { IsForest self.now.points }
        ensures for_ranks { IsForRanks self.now.points }
    {
        self.points.ranks()
    }

    /// The number of cells of the whole mesh.
    pub fn cells(&self) -> u32
        ensures { result ≡ self.now.cells }
    {
        self.cells
    }

    /// The layers of overlap.
    pub fn overlap(&self) -> u32
        ensures { result ≡ self.now.overlap }
    {
        self.overlap
    }

    /// How many of the fields, the first ones, are data sections.
    pub fn sections(&self) -> u32
        ensures { result ≡ self.now.sections }
    {
        self.sections
    }

    /// The forest of shared points, after `DMGetPointSF`: leaves are ghosts, roots the local points of
    /// their owners.
    pub fn points(&self) -> &Forest
        ensures { result.now ≡ self.now.points }
    {
        &self.points
    }

    /// What a rank holds.
    pub fn local(&self, rank: u32) -> &RankMesh
        requires { rank < length self.now.locals }
        ensures { slice_get self.now.locals rank ≡ Some result.now }
    {
        &self.locals[rank as usize]
    }
}
