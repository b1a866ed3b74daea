//! Where the ranks draw, each at a desk of its own.

ghost use Rattle.std.specs.Prelude.{◌≡◌, ℕ, List, map, Some, IfOk, IfSome};
ghost use Rattle.plain_lists.specs.Vectors.{lists_of};
ghost use Rattle.mesh_defs.specs.Mesh.{Mesh};
ghost use Rattle.plex_base.specs.Dim.{dim_number};
ghost use Rattle.rank_cones.specs.rank_drawings.Told.{IsTold, MayDraw, IsDrawing};

use crate::rank_drawings::drawing::{Drawing, draw_rank};
use dist_state::shared_state::Shared;
use plex_base::{Dim, NoMemory};
use rank_run::RankWork;
use std::alloc::Global;
use std::mem;

/// What lies before one rank: the arrangements of its faces and edges, which it takes away to draw, and
/// then its drawing. Without a drawing memory was wanting.
#[derive(Drop)]
pub(crate) struct Desk {
    arrangements: Vec<[u32; 4]>,
    drawing: Option<Drawing>,
}

/// The work of each rank at its desk: to draw.
#[derive(Drop)]
pub(crate) struct Drawer<'a> {
    pub(crate) alloc: Global,
    pub(crate) dim: Dim,
    pub(crate) shared: &'a Shared,
    pub(crate) keys: &'a [Vec<u64>],
}

impl<'a> RankWork<Desk> for Drawer<'a> {
    ghost accepts = { λ work rank desk. MayDraw (dim_number work.dim) work.shared.now (lists_of work.keys.now) desk.arrangements.items rank };

    ghost changes = { λ work rank before after. IfSome after.drawing (λ drawing. (m : Mesh) (dofs : List (List ℕ)) (a : List ℕ) (n : ℕ) → IsTold work.shared.now (lists_of work.keys.now) before.arrangements.items m dofs a n rank → dim_number work.dim ≡ m.dim → IsDrawing m a rank drawing) };

    fn step(&self, rank: u32, desk: &mut Desk) {
        let arrangements = mem::replace(&mut desk.arrangements, Vec::new(self.alloc));
        desk.drawing = draw_rank(
            self.alloc,
            self.dim,
            self.shared,
            self.keys,
            arrangements,
            rank,
        )
        .ok();
    }
}

/// A desk for each rank, with its arrangements.
pub(crate) fn desks_with(
    alloc: Global,
    arrangements: Vec<Vec<[u32; 4]>>,
) -> Result<Vec<Desk>, NoMemory>
    ensures { IfOk result (λ desks. map (λ d. d.arrangements.items) desks.items ≡ lists_of arrangements.items) }
{
    let mut desks = Vec::with_capacity(alloc, arrangements.len())?;
    for own in arrangements {
        desks.push(Desk {
            arrangements: own,
            drawing: None,
        })?;
    }
    Ok(desks)
}

/// What was drawn at the desks, where each rank has a drawing.
pub(crate) fn drawings_on(alloc: Global, desks: Vec<Desk>) -> Result<Vec<Drawing>, NoMemory>
    ensures { IfOk result (λ drawings. map (λ d. d.drawing) desks.items ≡ map Some drawings.items) }
{
    let mut all = Vec::with_capacity(alloc, desks.len())?;
    for desk in desks {
        all.push(desk.drawing.ok_or(NoMemory)?)?;
    }
    Ok(all)
}
