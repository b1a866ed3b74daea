//! The counts of all ranks.

ghost use Rattle.std.specs.Prelude.{◌≡◌, ◌<◌, ◌≤◌, [], length, map, get_or, IfOk};
ghost use Rattle.plain_lists.specs.Vectors.{lists_of};
ghost use Rattle.cells_at_vertices.specs.Picked.{picked_counts, AreAllPicked, AreForPoints};

use dist_state::{Dist, RankMesh};
use plex_base::{Dim, NoMemory};
use std::alloc::Global;
use std::marker::Model;

/// A vertex, and how many cells of the mesh have it.
#[derive(Clone, Copy, Debug, PartialEq, Eq)]
pub struct VertexCount {
    /// The position of the vertex in the mesh.
    pub vertex: u64,
    /// How many cells of the whole mesh have it among their corners.
    pub cells: u64,
}

/// For each rank its vertices, by rising position, each with its count. A vertex that ranks share stands on
/// each of them, with the same count.
#[derive(Debug, Drop)]
pub struct VertexCounts {
    ranks: Vec<Vec<VertexCount>>,
}

impl Model for VertexCounts {
    ghost use Rattle.std.specs.Prelude.{List};
    ghost use Rattle.plain_lists.specs.Vectors.{lists_of};
    ghost use Rattle.cells_at_vertices.specs.declared.counts.VertexCount.{VertexCount as Counted};

    ghost Value = { List (List Counted) };

    ghost view = { λ c. lists_of c.ranks.items };
}

impl VertexCounts {
    /// The vertices of each rank, with what these words have at their points.
    pub(crate) fn of(
        alloc: Global,
        dist: &Dist,
        words: &[Vec<u64>],
    ) -> Result<VertexCounts, NoMemory>
        requires { AreForPoints dist.now.locals (lists_of words.now) }
        ensures { IfOk result (λ counts. AreAllPicked dist.now.locals (lists_of words.now) (length dist.now.locals) counts) }
    {
        let mut ranks = Vec::with_capacity(alloc, words.len())?;
        for rank in 0..dist.ranks() {
            ranks.push(of_rank(alloc, dist.local(rank), &words[rank as usize])?)?;
        }
        Ok(VertexCounts { ranks })
    }

    /// The number of ranks.
    pub fn ranks(&self) -> usize
        ensures { result ≡ length self.now }
    {
        self.ranks.len()
    }

    /// The vertices of a rank, which are those of its own cells. Their places here are those among the
    /// vertices of the rank's diagram.
    pub fn rank(&self, rank: usize) -> &[VertexCount]
        requires { rank < length self.now }
        ensures { result.now ≡ get_or self.now rank [] }
    {
        &self.ranks[rank]
    }
}

/// The vertices of one rank, with what these words have at their points.
fn of_rank(alloc: Global, local: &RankMesh, words: &[u64]) -> Result<Vec<VertexCount>, NoMemory>
    requires { length words.now ≡ length local.now.diagram.points }
    ensures { IfOk result (λ counts. counts.items ≡ picked_counts local.now words.now) }
{
    let plex = local.plex();
    // It is a whole diagram: the proof takes this from the call.
    let _points = plex.chart();
    let vertices = plex.stratum(Dim::Zero);
    let mut counts = Vec::with_capacity(alloc, vertices.len())?;
    for p in vertices.start..vertices.end {
        counts.push(VertexCount {
            vertex: local.key(p).0,
            cells: words[p as usize],
        })?;
    }
    Ok(counts)
}
