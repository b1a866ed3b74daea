//! What one rank holds.
ghost use Rattle.std.specs.Prelude.{◌≡◌, ◌+◌, ◌-◌, ◌<◌, ◌≤◌, [], length, slice_index, get_or};
ghost use Rattle.plex_base.specs.Dim.{dim_number};
ghost use Rattle.dist_state.specs.Local.{local_of, IsLocalMesh};

use plex_base::{Dim, PointKey};
use plex_chart::Plex;
use plex_label::Label;
use plex_section::Field;
use std::marker::Model;

/// The parts of a [`RankMesh`].
#[derive(Debug, Drop)]
pub struct RankParts {
    /// The diagram of the points, numbered by their places in the rank's chart.
    pub plex: Plex,
    /// The key of each point.
    pub keys: Vec<PointKey>,
    /// The rank that owns each point.
    pub owners: Vec<u32>,
    /// The labels on points of dimension 0, 1, 2 and 3.
    pub labels: Vec<Label>,
    /// The words of the points in each field.
    pub fields: Vec<Field>,
    /// The coordinates of each vertex, in 10^-10.
    pub at: Vec<[i64; 3]>,
}

/// What one rank holds: the diagram of its points, and the key, the owner and the words of each, as
/// a local `DM` of PETSc has them after `DMPlexDistribute`. No call takes memory.
#[derive(Debug, Drop)]
pub struct RankMesh {
    parts: RankParts,
}

impl Model for RankMesh {
    ghost use Rattle.rank_defs.specs.Spread.{LocalMesh};

    ghost Value = { LocalMesh };

    ghost use Rattle.dist_state.specs.Local.{local_of, IsLocalMesh};

    ghost view = { λ r. local_of r.parts };

    ghost invariant = { λ r. IsLocalMesh (local_of r.parts) };
}

impl RankMesh {
    /// The mesh of these parts. There are as many keys and owners as points, and as many coordinates
    /// as vertices; four labels, by dimension; and each field has all points.
    pub fn of(parts: RankParts) -> RankMesh
        requires { IsLocalMesh (local_of parts) }
        ensures { result ≡ local_of parts }
    {
        RankMesh { parts }
    }

    /// The diagram.
    pub fn plex(&self) -> &Plex
        ensures plex { result.now ≡ self.now.diagram }

        // What every rank's mesh keeps.
        ensures whole { IsLocalMesh self.now }
    {
        &self.parts.plex
    }

    /// The key of a point, by which ranks name it.
    pub fn key(&self, p: u32) -> PointKey
        requires { p < length self.now.keys }
        ensures { result.0 ≡ slice_index self.now.keys p }
    {
        self.parts.keys[p as usize]
    }

    /// The rank that owns a point.
    pub fn owner(&self, p: u32) -> u32
        requires { p < length self.now.owners }
        ensures { result ≡ slice_index self.now.owners p }
    {
        self.parts.owners[p as usize]
    }

    /// The label on points of a dimension.
    pub fn label(&self, d: Dim) -> &Label
        ensures { result.now ≡ get_or self.now.labels (dim_number d) [] }
    {
        &self.parts.labels[d.number() as usize]
    }

    /// How many fields there are.
    pub fn fields(&self) -> usize
        ensures { result ≡ length self.now.fields }
    {
        self.parts.fields.len()
    }

    /// Field `i`: the data sections come first.
    pub fn field(&self, i: usize) -> &Field
        requires { i < length self.now.fields }
        ensures { result.now ≡ get_or self.now.fields i [] }
    {
        &self.parts.fields[i]
    }

    /// The coordinates of a vertex, by its local number, in 10^-10.
    pub fn at(&self, p: u32) -> [i64; 3]
        requires from { self.now.diagram.cells ≤ p }
        requires to { p < self.now.diagram.cells + length self.now.at }
        ensures { result ≡ get_or self.now.at (p - self.now.diagram.cells) [] }
    {
        let vertex = p - self.parts.plex.stratum(self.parts.plex.dim()).end;
        self.parts.at[vertex as usize]
    }
}
