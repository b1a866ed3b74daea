//! What ranks offer: the orders of vertices that they see under the keys.

ghost use Rattle.std.specs.Prelude.{◌≡◌, ◌+◌, ◌++◌, ◌<◌, length, map, IfOk};
ghost use Rattle.plain_lists.specs.Vectors.{lists_of};
ghost use Rattle.local_points.specs.Cells.{sight_at};
ghost use Rattle.local_points.specs.Points.{edges_among, faces_among};
ghost use Rattle.rank_chart_laws.specs.meeting_laws.Sets.{filled};
ghost use Rattle.rank_chart_laws.specs.key_laws.Places.{edge_count, face_count, first_face};
ghost use Rattle.rank_chart_laws.specs.key_laws.Words.{part, IsLaidOut};
ghost use Rattle.rank_cones.specs.arrangement_laws.Told.{offer, offers, rank_offers};

use crate::iface_arrangements::orders::{filled, order_number};
use dist_state::shared_state::Shared;
use plex_base::NoMemory;
use std::alloc::Global;

/// What each rank offers for each of its points, where these are the keys.
pub(crate) fn offers(
    alloc: Global,
    shared: &Shared,
    keys: &[Vec<u64>],
) -> Result<Vec<Vec<u64>>, NoMemory>
    requires laid_out { IsLaidOut shared.now }
    requires shape { map length (lists_of keys.now) ≡ shared.now.forest.roots }
    ensures { IfOk result (λ all. lists_of all.items ≡ offers shared.now (lists_of keys.now)) }
{
    let mut all = Vec::with_capacity(alloc, shared.ranks() as usize)?;
    for rank in 0..shared.ranks() {
        all.push(rank_offers(alloc, shared, rank, &keys[rank as usize])?)?;
    }
    Ok(all)
}

/// What a rank offers for each of its points.
fn rank_offers(
    alloc: Global,
    shared: &Shared,
    rank: u32,
    keys: &[u64],
) -> Result<Vec<u64>, NoMemory>
    requires laid_out { IsLaidOut shared.now }
    requires rank { rank < length shared.now.parts }
    requires shape { length keys.now ≡ length (part shared.now rank).sets }
    ensures { IfOk result (λ own. own.items ≡ rank_offers (part shared.now rank) keys.now) }
{
    let mut own = Vec::with_capacity(alloc, shared.points(rank) as usize)?;
    for place in 0..shared.points(rank) {
        own.push(offer(shared, rank, place, keys[place as usize]))?;
    }
    Ok(own)
}

/// What a rank offers for the point at a place, which has this key: the order of its vertices where the rank
/// sees it under the key, and 0 for other faces and edges, for cells and for vertices.
#[tactic(auto, unfolding(rank_cones::specs::arrangement_laws::Told::offer))]
fn offer(shared: &Shared, rank: u32, place: u32, key: u64) -> u64
    requires laid_out { IsLaidOut shared.now }
    requires rank { rank < length shared.now.parts }
    requires place { place < length (part shared.now rank).sets }
    ensures { result ≡ offer (part shared.now rank) key place }
{
    let first = first_face(shared, rank);
    if place < first {
        return 0;
    }
    let (own, vertices) = seen(shared, rank, place - first);
    if own == key {
        order_number(filled(shared.set(rank, place)), vertices)
    } else {
        0
    }
}

/// The key under which a rank sees a face or an edge, and its vertices as the rank's first cell that has it
/// sees them, filled up to four. Faces stand before edges.
fn seen(shared: &Shared, rank: u32, k: u32) -> (u64, [u32; 4])
    requires laid_out { IsLaidOut shared.now }
    requires rank { rank < length shared.now.parts }
    requires place { k < face_count (part shared.now rank) + edge_count (part shared.now rank) }
    ensures key { result.0 ≡ (sight_at (faces_among (part shared.now rank).cells ++ edges_among (part shared.now rank).cells) k).key }
    ensures vertices { result.1 ≡ filled (sight_at (faces_among (part shared.now rank).cells ++ edges_among (part shared.now rank).cells) k).arrangement }
{
    let local = shared.local(rank);
    let faces = local.faces();
    if k < faces {
        let (key, _, vertices) = local.face(k);
        (key.0, filled(vertices))
    } else {
        let (key, ends) = local.edge(k - faces);
        (key.0, filled(&ends))
    }
}

/// Where the faces of a rank begin: behind its cells and its vertices.
pub(crate) fn first_face(shared: &Shared, rank: u32) -> u32
    requires laid_out { IsLaidOut shared.now }
    requires rank { rank < length shared.now.parts }
    ensures { result ≡ first_face (part shared.now rank) }
{
    // All points have numbers of 32 bits: the proof takes this from the call.
    let _points = shared.points(rank);
    shared.cells(rank).len() as u32 + shared.vertices(rank).len() as u32
}
