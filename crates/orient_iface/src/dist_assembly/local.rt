//! What each rank holds.

ghost use Rattle.std.specs.Prelude.{◌≡◌, ℕ, List, None, length, map, IfOk};
ghost use Rattle.plain_lists.specs.Lists.{below};
ghost use Rattle.plain_lists.specs.Vectors.{lists_of};
ghost use Rattle.rank_cones.specs.declared.drawn.Drawn.TheVariants.{Whole};
ghost use Rattle.dist_state.specs.Local.{local_of};
ghost use Rattle.orient_iface.specs.dist_assembly.Drawn.{drawn_moves, drawn_twist};
ghost use Rattle.mesh_defs.specs.Mesh.{Mesh};
ghost use Rattle.rank_defs.specs.Ranks.{assigned};
ghost use Rattle.rank_defs.specs.Spread.{local_mesh};
ghost use Rattle.orient_iface.specs.dist_assembly.Ranks.{AreDrawn, AreSomeDrawn, IsRankDrawn, MayAssemble};

use crate::dist_assembly::words::{
    coordinates, keys_from, moved_fields, moved_labels, owners_from,
};
use crate::moved_points::sources_of;
use dist_state::shared_state::Shared;
use dist_state::{RankMesh, RankParts};
use plex_base::NoMemory;
use plex_chart::Plex;
use rank_cones::Drawn;
use rank_cones::rank_drawings::Drawing;
use std::alloc::Global;

/// What the ranks hold, by their drawings, the keys of their own points and where these go.
pub(crate) fn rank_meshes(
    alloc: Global,
    shared: &Shared,
    drawings: Vec<Drawing>,
    keys: &[Vec<u64>],
    moves: &[Vec<u32>],
) -> Result<Vec<RankMesh>, NoMemory>
    requires some { AreSomeDrawn shared.now drawings.items (lists_of keys.now) }
    requires moves { lists_of moves.now ≡ map (drawn_moves shared.now drawings.items) (below (length shared.now.parts)) }
    ensures { IfOk result (λ locals. (m : Mesh) (dofs : List (List ℕ)) (a : List ℕ) (n : ℕ) → AreDrawn shared.now drawings.items (lists_of keys.now) m dofs a n → locals.items ≡ map (λ r. local_mesh m dofs a (assigned m a r)) (below n)) }
{
    let mut locals = Vec::with_capacity(alloc, drawings.len())?;
    for drawing in drawings {
        let rank = locals.len();
        let (own_keys, own_moves) = (&keys[rank], &moves[rank]);
        locals.push(rank_mesh(alloc, shared, rank as u32, drawing, own_keys, own_moves)?)?;
    }
    Ok(locals)
}

/// What a rank holds, by its drawing, the keys of its own points and where these go.
fn rank_mesh(
    alloc: Global,
    shared: &Shared,
    rank: u32,
    drawing: Drawing,
    keys: &[u64],
    moves: &[u32],
) -> Result<RankMesh, NoMemory>
    requires { MayAssemble shared.now rank drawing keys.now moves.now }
    ensures { IfOk result (λ local. (m : Mesh) (dofs : List (List ℕ)) (a : List ℕ) (n : ℕ) → IsRankDrawn shared.now rank drawing keys.now moves.now m dofs a n → local ≡ local_mesh m dofs a (assigned m a rank)) }
{
    let parts = rank_parts(alloc, shared, rank, drawing, keys, moves)?;
    Ok(RankMesh::of(parts))
}

/// The parts of what a rank holds.
fn rank_parts(
    alloc: Global,
    shared: &Shared,
    rank: u32,
    drawing: Drawing,
    keys: &[u64],
    moves: &[u32],
) -> Result<RankParts, NoMemory>
    requires { MayAssemble shared.now rank drawing keys.now moves.now }
    ensures { IfOk result (λ parts. (m : Mesh) (dofs : List (List ℕ)) (a : List ℕ) (n : ℕ) → IsRankDrawn shared.now rank drawing keys.now moves.now m dofs a n → local_of parts ≡ local_mesh m dofs a (assigned m a rank)) }
{
    let sources = sources_of(alloc, moves)?;
    Ok(RankParts {
        keys: keys_from(alloc, keys, &sources)?,
        owners: owners_from(alloc, shared, rank, &sources)?,
        labels: moved_labels(alloc, shared, rank, moves)?,
        fields: moved_fields(alloc, shared, rank, moves)?,
        at: coordinates(alloc, shared, rank)?,
        plex: plex_of(drawing),
    })
}

/// The diagram that a rank drew.
fn plex_of(drawing: Drawing) -> Plex
    requires { drawn_twist drawing.drawn ≡ None }
    ensures { drawing.drawn ≡ Whole result }
{
    match drawing.into_drawn() {
        Drawn::Whole(plex) => plex,
        Drawn::Twisted(_) => unreachable!(),
    }
}
