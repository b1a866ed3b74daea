//! What one rank draws.

ghost use Rattle.std.specs.Prelude.{◌≡◌, ℕ, List, IfOk};
ghost use Rattle.plain_lists.specs.Vectors.{lists_of};
ghost use Rattle.mesh_defs.specs.Mesh.{Mesh};
ghost use Rattle.plex_base.specs.Dim.{dim_number};
ghost use Rattle.rank_cones.specs.rank_drawings.Told.{IsTold, MayDraw, IsDrawing};

use crate::held_points::{HeldPoints, held_points};
use crate::rank_drawings::cells::RankCells;
use crate::{Drawn, rank_plex};
use dist_state::shared_state::Shared;
use plex_base::{Dim, NoMemory};
use std::alloc::Global;
use std::marker::Model;

/// What a rank holds by key, and what it made of it: the diagram of its points, or its own twist.
#[derive(Drop)]
pub struct Drawing {
    held: HeldPoints,
    drawn: Drawn,
}

impl Model for Drawing {
    ghost use Rattle.rank_cones.specs.rank_drawings.Told.{PlainDrawing};

    ghost Value = { PlainDrawing };

    ghost view = { λ d. record { held = d.held; drawn = d.drawn } };
}

impl Drawing {
    /// The faces and edges of the rank by key.
    pub fn held(&self) -> &HeldPoints
        ensures { result.now ≡ self.now.held }
    {
        &self.held
    }

    /// The diagram of its points, or its own twist.
    pub fn drawn(&self) -> &Drawn
        ensures { result.now ≡ self.now.drawn }
    {
        &self.drawn
    }

    /// The same, without what the rank holds. Takes no memory.
    pub fn into_drawn(self) -> Drawn
        ensures { result ≡ self.drawn }
    {
        self.drawn
    }
}

/// What a rank draws: it puts its points in the order of their keys, and makes its diagram once it has
/// given back the memory of their arrangements.
pub(crate) fn draw_rank(
    alloc: Global,
    dim: Dim,
    shared: &Shared,
    keys: &[Vec<u64>],
    arrangements: Vec<[u32; 4]>,
    rank: u32,
) -> Result<Drawing, NoMemory>
    requires { MayDraw (dim_number dim) shared.now (lists_of keys.now) arrangements.items rank }
    ensures { IfOk result (λ drawing. (m : Mesh) (dofs : List (List ℕ)) (a : List ℕ) (n : ℕ) → IsTold shared.now (lists_of keys.now) arrangements.items m dofs a n rank → dim_number dim ≡ m.dim → IsDrawing m a rank drawing) }
{
    let (vertices, local) = (shared.vertices(rank), shared.local(rank));
    let first = shared.cells(rank).len() + vertices.len();
    let (_, lower_keys) = keys[rank as usize].split_at(first);
    let held = held_points(alloc, local, lower_keys, &arrangements)?;
    drop(arrangements);
    let cells = RankCells { shared, rank };
    let drawn = rank_plex(alloc, dim, &cells, vertices, local, &held)?;
    Ok(Drawing { held, drawn })
}
