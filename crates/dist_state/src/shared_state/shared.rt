//! What all ranks have.
ghost use Rattle.std.specs.Prelude.{◌≡◌, ℕ, ◌<◌, [], Some, get_or, length, map, slice_get};
ghost use Rattle.plex_base.specs.Dim.{dim_number};
ghost use Rattle.local_points.specs.Points.{local_points};
ghost use Rattle.dist_state.specs.scatter_state.Parts.{cell_at, number_of};
ghost use Rattle.dist_state.specs.shared_state.Points.{shared_at};
ghost use Rattle.dist_state.specs.shared_state.Whole.{shared_of, IsShape, IsWholeShared};

use crate::scatter_state::Scatter;
use crate::shared_state::own_points::OwnPoints;
use local_points::LocalPoints;
use mesh_defs::Poly;
use plex_base::Dim;
use plex_label::Label;
use plex_section::Field;
use sf_graph::Forest;
use std::marker::Model;

/// The points that ranks see of their own cells, and the forest of shared points, after the first half of
/// `DMPlexInterpolate` on a distributed `DMPlex`. A point is named by its place on its rank: cells, vertices,
/// faces, edges. No call takes memory.
#[derive(Drop)]
pub struct Shared {
    scatter: Scatter,
    points: Vec<OwnPoints>,
    forest: Forest,
}

impl Model for Shared {
    ghost use Rattle.rank_defs.specs.Spread.{PlainShared};
    ghost use Rattle.dist_state.specs.shared_state.Whole.{shared_of, IsWholeShared};

    ghost Value = { PlainShared };

    ghost view = { λ s. shared_of s.scatter s.points.items s.forest };

    ghost invariant = { λ s. IsWholeShared s.scatter s.points.items s.forest };
}

impl Shared {
    /// What ranks have that were given `scatter` and know these points, with the forest of the shared ones.
    ///
    /// Each rank of the scatter has its points, all of which are roots of the forest, with words in each
    /// data section and in each field beside them. Takes no memory.
    pub fn of(scatter: Scatter, points: Vec<OwnPoints>, forest: Forest) -> Shared
        requires { IsWholeShared scatter points.items forest }
        ensures { result ≡ shared_of scatter points.items forest }
    {
        Shared {
            scatter,
            points,
            forest,
        }
    }

    /// The number of ranks, 1 to 64.
    pub fn ranks(&self) -> u32
        ensures ranks { result ≡ length self.now.parts }

        // What is kept of all ranks.
        ensures shape { IsShape self.now }
    {
        self.scatter.ranks()
    }

    /// The number of cells of the whole mesh.
    pub fn whole(&self) -> u32
        ensures { result ≡ self.now.whole }
    {
        self.scatter.whole()
    }

    /// The places of a rank's cells in the whole mesh, rising.
    pub fn cells(&self, rank: u32) -> &[u32]
        requires { rank < length self.now.parts }
        ensures { result.now ≡ map number_of (shared_at self.now.parts rank).cells }
    {
        self.scatter.cells(rank)
    }

    /// The vertices of a rank's cells, by their positions in the whole mesh, rising.
    pub fn vertices(&self, rank: u32) -> &[u32]
        requires { rank < length self.now.parts }
        ensures { result.now ≡ (shared_at self.now.parts rank).vertices }
    {
        self.scatter.vertices(rank)
    }

    /// The polytope of the `i`th cell of a rank.
    pub fn poly(&self, rank: u32, i: u32) -> Poly
        requires rank { rank < length self.now.parts }
        requires place { i < length (shared_at self.now.parts rank).cells }
        ensures { result ≡ (cell_at (shared_at self.now.parts rank).cells i).1.poly }
    {
        self.scatter.poly(rank, i)
    }

    /// The vertices of the `i`th cell of a rank, in the order of its polytope's corners.
    pub fn list(&self, rank: u32, i: u32) -> &[u32]
        requires rank { rank < length self.now.parts }
        requires place { i < length (shared_at self.now.parts rank).cells }
        ensures { result.now ≡ (cell_at (shared_at self.now.parts rank).cells i).1.vertices }
    {
        self.scatter.list(rank, i)
    }

    /// The coordinates of the `i`th vertex of a rank, in 10^-10.
    pub fn at(&self, rank: u32, i: u32) -> [i64; 3]
        requires rank { rank < length self.now.parts }
        requires place { i < length (shared_at self.now.parts rank).vertices }
        ensures { slice_get (shared_at self.now.parts rank).at i ≡ Some result }
    {
        self.scatter.at(rank, i)
    }

    /// How many of the fields, the first ones, are data sections.
    pub fn sections(&self) -> u32
        ensures { result ≡ self.now.sections }
    {
        self.scatter.sections()
    }

    /// The faces and edges of a rank, as its cells see them: they stand behind its cells and its vertices,
    /// in this order.
    pub fn local(&self, rank: u32) -> &LocalPoints
        requires { rank < length self.now.parts }
        ensures { result.now ≡ local_points (shared_at self.now.parts rank).cells }
    {
        self.points[rank as usize].local()
    }

    /// How many points a rank has.
    pub fn points(&self, rank: u32) -> u32
        requires { rank < length self.now.parts }
        ensures { result ≡ length (shared_at self.now.parts rank).sets }
    {
        self.points[rank as usize].points()
    }

    /// The vertices of point `p` of a rank, rising.
    pub fn set(&self, rank: u32, p: u32) -> &[u32]
        requires rank { rank < length self.now.parts }
        requires point { p < length (shared_at self.now.parts rank).sets }
        ensures { result.now ≡ get_or (shared_at self.now.parts rank).sets p [] }
    {
        self.points[rank as usize].set(p as usize)
    }

    /// The label on a rank's points of a dimension.
    pub fn label(&self, rank: u32, d: Dim) -> &Label
        requires { rank < length self.now.parts }
        ensures { result.now ≡ get_or (shared_at self.now.parts rank).labels (dim_number d) [] }
    {
        self.points[rank as usize].label(d)
    }

    /// How many fields there are, on each rank: the data sections, and those of words by dimension.
    pub fn fields(&self) -> u32
        ensures { (rank : ℕ) → rank < length self.now.parts → length (shared_at self.now.parts rank).fields ≡ result }
    {
        self.scatter.sections() + self.scatter.dofs()
    }

    /// Field `i` of a rank's points: the data sections come first.
    pub fn field(&self, rank: u32, i: u32) -> &Field
        requires rank { rank < length self.now.parts }
        requires field { i < length (shared_at self.now.parts rank).fields }
        ensures { result.now ≡ get_or (shared_at self.now.parts rank).fields i [] }
    {
        self.points[rank as usize].field(i as usize)
    }

    /// The forest of shared points: every point is a root, and the leaves of a rank are its points that
    /// others own.
    pub fn forest(&self) -> &Forest
        ensures { result.now ≡ self.now.forest }
    {
        &self.forest
    }
}
