//! Where the points of a rank go: from the chart of what its cells see to the chart by keys.

ghost use Rattle.std.specs.Prelude.{◌≡◌, ◌+◌, ◌^◌, ◌<◌, ◌++◌, length, map, IfOk, OnOk};
ghost use Rattle.std.specs.List.{AllByRecursion};
ghost use Rattle.plain_lists.specs.Lists.{below};
ghost use Rattle.plain_lists.specs.Vectors.{lists_of};
ghost use Rattle.dist_state.specs.shared_state.Points.{shared_at};
ghost use Rattle.rank_cones.specs.rank_drawings.Told.{PlainDrawing};
ghost use Rattle.orient_iface.specs.dist_assembly.Drawn.{held_moves, drawn_moves, FitDrawings, FitHeld};

use dist_state::shared_state::Shared;
use plex_base::NoMemory;
use rank_cones::held_points::HeldPoints;
use rank_cones::rank_drawings::Drawing;
use std::alloc::Global;

/// The moves of all ranks.
pub(crate) fn all_moves(
    alloc: Global,
    shared: &Shared,
    drawings: &[Drawing],
) -> Result<Vec<Vec<u32>>, NoMemory>
    requires { FitDrawings shared.now drawings.now }
    ensures { IfOk result (λ moves. lists_of moves.items ≡ map (drawn_moves shared.now drawings.now) (below (length shared.now.parts))) }
{
    let mut moves = Vec::with_capacity(alloc, drawings.len())?;
    for rank in 0..shared.ranks() {
        moves.push(rank_moves(alloc, shared, rank, drawings[rank as usize].held())?)?;
    }
    Ok(moves)
}

/// The moves of a rank: its cells and vertices stay, its faces go to their places by key behind them, and
/// its edges behind the faces.
fn rank_moves(
    alloc: Global,
    shared: &Shared,
    rank: u32,
    held: &HeldPoints,
) -> Result<Vec<u32>, NoMemory>
    requires rank { rank < length shared.now.parts }
    requires fits { FitHeld (shared_at shared.now.parts rank) held.now }
    ensures { IfOk result (λ moves. moves.items ≡ held_moves (shared_at shared.now.parts rank) held.now) }
{
    let first = (shared.cells(rank).len() + shared.vertices(rank).len()) as u32;
    let local = shared.local(rank);
    let mut moves = Vec::with_capacity(alloc, shared.points(rank) as usize)?;
    push_places(&mut moves, first)?;
    push_faces(&mut moves, first, local.faces(), held)?;
    push_edges(&mut moves, first + held.faces(), local.edges(), held)?;
    Ok(moves)
}

/// So many places that stay.
fn push_places(moves: &mut Vec<u32>, count: u32) -> Result<(), NoMemory>
    ensures { OnOk result (moves.new.items ≡ moves.old.items ++ below count) }
{
    for place in 0..count {
        moves.push(place)?;
    }
    Ok(())
}

/// Where the rank's own faces go, behind so many points.
fn push_faces(
    moves: &mut Vec<u32>,
    base: u32,
    count: u32,
    held: &HeldPoints,
) -> Result<(), NoMemory>
    requires count { count ≡ length held.now.face_moves }
    requires low { AllByRecursion (λ k. base + k < 2 ^ 32) held.now.face_moves }
    ensures { OnOk result (moves.new.items ≡ moves.old.items ++ map (λ k. base + k) held.now.face_moves) }
{
    for p in 0..count {
        moves.push(base + held.face_move(p))?;
    }
    Ok(())
}

/// Where the rank's own edges go, behind so many points.
fn push_edges(
    moves: &mut Vec<u32>,
    base: u32,
    count: u32,
    held: &HeldPoints,
) -> Result<(), NoMemory>
    requires count { count ≡ length held.now.edge_moves }
    requires low { AllByRecursion (λ k. base + k < 2 ^ 32) held.now.edge_moves }
    ensures { OnOk result (moves.new.items ≡ moves.old.items ++ map (λ k. base + k) held.now.edge_moves) }
{
    for p in 0..count {
        moves.push(base + held.edge_move(p))?;
    }
    Ok(())
}
