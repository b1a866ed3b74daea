//! What one rank knows of its points.
ghost use Rattle.std.specs.Prelude.{◌≡◌, ◌<◌, [], length, get_or};
ghost use Rattle.plex_base.specs.Dim.{dim_number};
ghost use Rattle.dist_state.specs.shared_state.Points.{IsPointData, PointData};

use local_points::LocalPoints;
use plex_base::Dim;
use plex_label::Label;
use plex_section::Field;
use sf_fabric::FlatLists;
use std::marker::Model;

/// What one rank knows of the points of its own cells: cells, vertices, faces, edges. No call takes
/// memory.
#[derive(Drop)]
pub struct OwnPoints {
    /// The faces and edges as the cells see them.
    local: LocalPoints,
    /// The vertices of each point, rising.
    sets: FlatLists<u32>,
    /// The labels on points of dimension 0, 1, 2 and 3.
    labels: Vec<Label>,
    /// The words of the points in each field.
    fields: Vec<Field>,
}

impl Model for OwnPoints {
    ghost use Rattle.dist_state.specs.shared_state.Points.{IsPointData, PointData};

    ghost Value = { PointData };

    ghost view = { λ p. record { local = p.local; sets = p.sets; labels = p.labels.items; fields = p.fields.items } };

    ghost invariant = { λ p. IsPointData (record { local = p.local; sets = p.sets; labels = p.labels.items; fields = p.fields.items }) };
}

impl OwnPoints {
    /// Points with these sets of vertices, labels and words, of which these are the faces and edges. They
    /// are fewer than 2^32; there are four labels, by dimension, and each field has all points.
    pub fn of(
        local: LocalPoints,
        sets: FlatLists<u32>,
        labels: Vec<Label>,
        fields: Vec<Field>,
    ) -> OwnPoints
        requires { IsPointData (record { local = local; sets = sets; labels = labels.items; fields = fields.items }) }
        ensures { result ≡ record { local = local; sets = sets; labels = labels.items; fields = fields.items } }
    {
        OwnPoints {
            local,
            sets,
            labels,
            fields,
        }
    }

    /// How many points there are.
    pub fn points(&self) -> u32
        ensures count { result ≡ length self.now.sets }

        // What is kept of the points of every rank.
        ensures right { IsPointData self.now }
    {
        self.sets.len() as u32
    }

    /// The faces and edges, as the cells see them.
    pub fn local(&self) -> &LocalPoints
        ensures { result.now ≡ self.now.local }
    {
        &self.local
    }

    /// The vertices of point `p`, rising.
    pub fn set(&self, p: usize) -> &[u32]
        requires { p < length self.now.sets }
        ensures { result.now ≡ get_or self.now.sets p [] }
    {
        self.sets.list(p)
    }

    /// The label on points of a dimension.
    pub fn label(&self, d: Dim) -> &Label
        ensures { result.now ≡ get_or self.now.labels (dim_number d) [] }
    {
        &self.labels[d.number() as usize]
    }

    /// How many fields there are.
    pub fn fields(&self) -> usize
        ensures { result ≡ length self.now.fields }
    {
        self.fields.len()
    }

    /// Field `i`: the data sections come first.
    pub fn field(&self, i: usize) -> &Field
        requires { i < length self.now.fields }
        ensures { result.now ≡ get_or self.now.fields i [] }
    {
        &self.fields[i]
    }
}
