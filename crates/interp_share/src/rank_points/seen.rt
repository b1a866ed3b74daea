//! The faces and edges that a rank sees.
ghost use Rattle.std.specs.Prelude.{◌≡◌, ◌++◌, map, IfOk, OnOk};
ghost use Rattle.std.specs.List.{AllByRecursion};
ghost use Rattle.mesh_defs.specs.Points.{Sight};
ghost use Rattle.local_points.specs.Cells.{AreFit};
ghost use Rattle.rank_chart_laws.specs.OwnRanks.{set_of};
ghost use Rattle.interp_share.specs.rank_points.Seen.{seen_of, IsSmall};

use crate::rank_points::part_cells::PartCells;
use crate::rank_points::sorting::set_on;
use dist_state::scatter_state::RankPart;
use local_points::{LocalPoints, PointFinder};
use plex_base::NoMemory;
use std::alloc::Global;
use std::marker::Model;
use std::thread::Threads;

/// What a rank sees of its cells: their faces and edges, and the vertices of these as sets, by which
/// ranks find the points that they share.
#[derive(Drop)]
pub struct SeenPoints {
    finder: PointFinder,
    sets: Vec<[u32; 4]>,
}

impl Model for SeenPoints {
    ghost use Rattle.interp_share.specs.rank_points.Seen.{Seen};

    ghost Value = { Seen };

    ghost view = { λ p. record { local = p.finder; sets = p.sets.items } };
}

impl SeenPoints {
    /// The faces and edges, and where each cell has them.
    pub fn local(&self) -> &LocalPoints
        ensures { result.now ≡ self.now.local }
    {
        self.finder.local()
    }

    /// The faces and edges, as they are found on their vertices.
    pub fn finder(&self) -> &PointFinder
        ensures { result.now ≡ self.now.local }
    {
        &self.finder
    }

    /// The vertices of each face and then of each edge, rising, with 2^32 - 1 behind the last one.
    pub fn sets(&self) -> &[[u32; 4]]
        ensures { result.now ≡ self.now.sets }
    {
        &self.sets
    }

    /// The faces and edges, without what they are found by. Takes no memory.
    pub fn into_local(self) -> LocalPoints
        ensures { result ≡ self.local }
    {
        self.finder.into_local()
    }
}

/// What a rank sees of its cells, each face and edge once: the first half of `DMPlexInterpolate` on one
/// rank.
///
/// The cells are at most 250,000 polygons and solids of vertices below 2^32 - 1. `NoMemory` comes for want
/// of memory alone.
pub fn see_points<R: Threads + Sync>(
    rt: &R,
    alloc: Global,
    part: &RankPart,
) -> Result<SeenPoints, NoMemory>
    requires { AreFit part.now.cells }
    ensures { IfOk result (λ seen. seen ≡ seen_of part.now.cells) }
{
    let finder = PointFinder::of(rt, alloc, &PartCells { part })?;
    let sets = sets_of(alloc, finder.local())?;
    Ok(SeenPoints { finder, sets })
}

/// The sets of the faces and then of the edges.
fn sets_of(alloc: Global, local: &LocalPoints) -> Result<Vec<[u32; 4]>, NoMemory>
    requires { AllByRecursion IsSmall local.now.faces }
    ensures { IfOk result (λ sets. sets.items ≡ map set_of (local.now.faces ++ local.now.edges)) }
{
    let count = local.faces() + local.edges();
    let mut sets = Vec::with_capacity(alloc, count as usize)?;
    push_faces(&mut sets, local)?;
    push_edges(&mut sets, local)?;
    Ok(sets)
}

/// Puts the sets of the faces behind what is there.
fn push_faces(sets: &mut Vec<[u32; 4]>, local: &LocalPoints) -> Result<(), NoMemory>
    requires { AllByRecursion IsSmall local.now.faces }
    ensures { OnOk result (sets.new.items ≡ sets.old.items ++ map set_of local.now.faces) }
{
    for k in 0..local.faces() {
        let (_, _, vertices) = local.face(k);
        sets.push(set_on(vertices))?;
    }
    Ok(())
}

/// Puts the sets of the edges behind what is there.
fn push_edges(sets: &mut Vec<[u32; 4]>, local: &LocalPoints) -> Result<(), NoMemory>
    ensures { OnOk result (sets.new.items ≡ sets.old.items ++ map set_of local.now.edges) }
{
    for k in 0..local.edges() {
        let (_, ends) = local.edge(k);
        sets.push(set_on(&ends))?;
    }
    Ok(())
}
