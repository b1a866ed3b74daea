//! Faces and edges in an order.

ghost use Rattle.std.specs.Prelude.{◌≡◌, ◌<◌, ◌≤◌, map, length, IfOk};
ghost use Rattle.std.specs.List.{AllByRecursion};
ghost use Rattle.rank_cones.specs.held_points.Held.{face_on, edge_on, given_point};
ghost use Rattle.rank_cones.specs.held_points.Stored.{face_of, edge_of};

use crate::held_points::stored::{HeldEdge, HeldFace};
use plex_base::NoMemory;
use std::alloc::Global;

/// The faces under these keys and with these vertices, in this order of their places.
pub(crate) fn faces_in(
    alloc: Global,
    keys: &[u64],
    lists: &[[u32; 4]],
    order: &[u32],
) -> Result<Vec<HeldFace>, NoMemory>
    requires lists { length lists.now ≡ length keys.now }
    requires order { AllByRecursion (λ k. k < length keys.now) order.now }
    ensures { IfOk result (λ faces. map face_of faces.items ≡ map (given_point face_on keys.now lists.now) order.now) }
{
    let mut faces = Vec::with_capacity(alloc, order.len())?;
    for place in order {
        let k = *place as usize;
        faces.push(HeldFace {
            key: keys[k],
            corners: lists[k],
        })?;
    }
    Ok(faces)
}

/// The edges under these keys and between the first two of these numbers, in this order of their places.
pub(crate) fn edges_in(
    alloc: Global,
    keys: &[u64],
    lists: &[[u32; 4]],
    order: &[u32],
) -> Result<Vec<HeldEdge>, NoMemory>
    requires lists { length lists.now ≡ length keys.now }
    requires order { AllByRecursion (λ k. k < length keys.now) order.now }
    ensures { IfOk result (λ edges. map edge_of edges.items ≡ map (given_point edge_on keys.now lists.now) order.now) }
{
    let mut edges = Vec::with_capacity(alloc, order.len())?;
    for place in order {
        let k = *place as usize;
        let [from, to, _, _] = lists[k];
        edges.push(HeldEdge {
            key: keys[k],
            ends: [from, to],
        })?;
    }
    Ok(edges)
}
