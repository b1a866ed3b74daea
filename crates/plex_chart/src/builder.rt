ghost use Rattle.std.specs.Prelude.{◌≡◌, ◌+◌, ◌-◌, ◌<◌, ◌≤◌, ◌^◌, [], ◌∷◌, ◌++◌, length, IfOk, OnOk, OnErr};
ghost use Rattle.std.specs.List.{AllByRecursion};
ghost use Rattle.mesh_defs.specs.declared.ConeEntry.{ConeEntry as Entry};
ghost use Rattle.mesh_defs.specs.Tables.{dim_of, facets_of};
ghost use Rattle.plex_base.specs.Dim.{dim_number};
ghost use Rattle.plex_chart.specs.Chart.{IsInStratum, IsWhole};

use crate::cones::Cones;
use crate::plex::Plex;
use crate::strata::Strata;
use mesh_defs::{ConeEntry, Poly};
use plex_base::{Dim, NoMemory};
use std::alloc::Global;
use std::marker::Model;

/// A diagram whose points are pushed one after another, as `DMPlexSetCone` and
/// `DMPlexSetConeOrientation` fill one. Contracts see it as the diagram of the points so far.
#[derive(Debug, Drop)]
pub struct PlexBuilder {
    strata: Strata,
    cones: Cones,
}

impl Model for PlexBuilder {
    ghost use Rattle.mesh_defs.specs.Diagram.{Diagram};

    ghost Value = { Diagram };

    ghost use Rattle.plex_chart.specs.Chart.{FitsChart};
    ghost use Rattle.plex_chart.specs.Strata.{diagram_of};

    ghost view = { λ b. diagram_of b.strata b.cones };

    ghost invariant = { λ b. FitsChart (diagram_of b.strata b.cones) };
}

impl PlexBuilder {
    /// A diagram without points yet, with the dimension of its cells, 2 or 3, and the number of
    /// points in each stratum, as `DMPlexSetChart` fixes the chart. A mesh of polygons has no faces
    /// besides its cells, and all points together are fewer than 2^32. Takes no memory.
    pub fn new(
        alloc: Global,
        dim: Dim,
        cells: u32,
        vertices: u32,
        faces: u32,
        edges: u32,
    ) -> PlexBuilder
        requires dim { 2 ≤ dim_number dim }
        requires flat { dim_number dim ≡ 2 → faces ≡ 0 }
        requires fits { cells + vertices + faces + edges < 2 ^ 32 }
        ensures { result ≡ record { dim = dim_number dim; cells = cells; vertices = vertices; faces = faces; edges = edges; points = [] } }
    {
        PlexBuilder {
            strata: Strata {
                dim,
                cells,
                vertices,
                faces,
                edges,
            },
            cones: Cones::new(alloc),
        }
    }

    /// Pushes the next point, of the stratum that comes next in the chart, with one entry for each
    /// facet in the order of the tables: `DMPlexSetCone` and `DMPlexSetConeOrientation`. The entries
    /// may name points that are yet to come, each in the stratum of the facets.
    ///
    /// Returns the number of the point. Fails only for want of memory, or where all cones together
    /// would have 2^32 entries, and then has pushed nothing. The first point takes room for all.
    pub fn push(&mut self, poly: Poly, cone: &[ConeEntry]) -> Result<u32, NoMemory>
        requires place { IsInStratum self.old (dim_of poly) (length self.old.points) }
        requires arity { length cone.now ≡ length (facets_of poly) }
        requires below { AllByRecursion (λ (e : Entry). IsInStratum self.old (dim_of poly - 1) e.point) cone.now }

        ensures number { IfOk result (λ p. p ≡ length self.old.points) }
        ensures ok { OnOk result (self.new ≡ record self.old { points = self.old.points ++ record { poly = poly; covers = cone.now } ∷ [] }) }
        ensures err { OnErr result (self.new ≡ self.old) }
    {
        self.reserve_at_first(poly)?;
        let p = self.cones.len() as u32;
        self.cones.push(poly, cone)?;
        Ok(p)
    }

    /// Takes room for all points and their cones when the first point comes, so that growing leaves
    /// nothing over where all cells are like the first.
    fn reserve_at_first(&mut self, first: Poly) -> Result<(), NoMemory>
        ensures { self.new ≡ self.old }
    {
        if self.cones.len() == 0 {
            let points = self.strata.points();
            let entries = self.strata.entries_if_alike(first);
            self.cones.reserve(points, entries)?;
        }
        Ok(())
    }

    /// The diagram, once all its points are there and each entry of a cone has the polytope and an
    /// orientation of its facet (`DMSetUp`). Gives back the memory that growing left over.
    pub fn finish(self) -> Result<Plex, NoMemory>
        requires { IsWhole self }
        ensures { IfOk result (λ plex. plex ≡ self) }
    {
        let PlexBuilder { strata, mut cones } = self;
        cones.shrink_to_fit();
        Ok(Plex::from_parts(strata, cones))
    }
}
