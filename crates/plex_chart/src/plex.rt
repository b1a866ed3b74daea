ghost use Rattle.std.specs.Prelude.{◌≡◌, ◌<◌, ◌≤◌, length};
ghost use Rattle.std.specs.List.{All};
ghost use Rattle.mesh_defs.specs.declared.ConeEntry.{ConeEntry as Entry};
ghost use Rattle.mesh_defs.specs.Tables.{dim_of, facets_of};
ghost use Rattle.plex_base.specs.Dim.{dim_number};
ghost use Rattle.plex_chart.specs.Chart.{stratum_range, point_at, IsInStratum, FitsChart, IsWhole};

use crate::cones::Cones;
use crate::strata::Strata;
use mesh_defs::{ConeEntry, Poly};
use plex_base::Dim;
use std::marker::Model;
use std::ops::Range;

/// The whole diagram of one rank, after DMPlex, its points numbered from 0. No call takes memory.
#[derive(Debug, Drop)]
pub struct Plex {
    strata: Strata,
    cones: Cones,
}

impl Model for Plex {
    ghost use Rattle.mesh_defs.specs.Diagram.{Diagram};

    ghost Value = { Diagram };

    ghost use Rattle.plex_chart.specs.Chart.{IsPlex};
    ghost use Rattle.plex_chart.specs.Strata.{diagram_of};

    ghost view = { λ a. diagram_of a.strata a.cones };

    ghost invariant = { λ a. IsPlex (diagram_of a.strata a.cones) };
}

impl Plex {
    ghost use Rattle.plex_chart.specs.Strata.{diagram_of};

    pub(crate) fn from_parts(strata: Strata, cones: Cones) -> Plex
        requires chart { FitsChart (diagram_of strata cones) }
        requires whole { IsWhole (diagram_of strata cones) }
        ensures { result ≡ diagram_of strata cones }
    {
        Plex { strata, cones }
    }

    /// The dimension of the cells, 2 or 3: `DMGetDimension`.
    pub fn dim(&self) -> Dim
        ensures { dim_number result ≡ self.now.dim }
    {
        self.strata.dim
    }

    /// How many points there are: the chart of `DMPlexGetChart` goes from 0 to here.
    pub fn chart(&self) -> u32
        ensures count { result ≡ length self.now.points }

        // What every whole diagram keeps.
        ensures fits { FitsChart self.now }
        ensures whole { IsWhole self.now }
    {
        self.cones.len() as u32
    }

    /// The points of a dimension, from the first to after the last: `DMPlexGetDepthStratum`. Empty
    /// where the diagram has none.
    pub fn stratum(&self, d: Dim) -> Range<u32>
        ensures start { result.start ≡ (stratum_range self.now (dim_number d)).0 }
        ensures end { result.end ≡ (stratum_range self.now (dim_number d)).1 }
        ensures within { result.end ≤ length self.now.points }
    {
        self.strata.range(d)
    }

    /// The polytope of a point: `DMPlexGetCellType`.
    pub fn poly_of(&self, p: u32) -> Poly
        requires { p < length self.now.points }
        ensures value { result ≡ (point_at self.now p).poly }
        ensures place { IsInStratum self.now (dim_of result) p }
    {
        self.cones.poly_of(p as usize)
    }

    /// What a point covers, one entry for each facet in the order of the tables, with the
    /// orientation under which the covered point's own arrangement is the facet:
    /// `DMPlexGetOrientedCone`.
    pub fn cone(&self, p: u32) -> &[ConeEntry]
        requires { p < length self.now.points }
        ensures value { result.now ≡ (point_at self.now p).covers }
        ensures arity { length result.now ≡ length (facets_of (point_at self.now p).poly) }
        ensures below { All (λ (e : Entry). e.point < length self.now.points) result.now }
    {
        self.cones.cone(p as usize)
    }
}
