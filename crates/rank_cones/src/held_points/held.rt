ghost use Rattle.std.specs.Prelude.{◌≡◌, ◌+◌, ◌<◌, ◌≤◌, length, take, drop, slice_index, IfOk, Some};
ghost use Rattle.std.specs.List.{slice_get};
ghost use Rattle.mesh_defs.specs.declared.Poly.TheVariants.{Segment};
ghost use Rattle.rank_cones.specs.held_points.Held.{AreByKey, given, face_on, edge_on};

use crate::held_points::order::{moves_of, order_of};
use crate::held_points::stored::{HeldEdge, HeldFace};
use crate::held_points::strata::{edges_in, faces_in};
use local_points::LocalPoints;
use mesh_defs::Poly;
use plex_base::{NoMemory, PointKey};
use std::alloc::Global;
use std::marker::Model;

/// Stands in the place of the fourth vertex of a triangle.
const NO_VERTEX: u32 = 4294967295;

/// The faces and the edges of a rank by rising key, as the strata of its chart have them, and for each of the rank's own
/// faces and edges its place among them. No call takes memory.
#[derive(Drop)]
pub struct HeldPoints {
    faces: Vec<HeldFace>,
    edges: Vec<HeldEdge>,
    face_moves: Vec<u32>,
    edge_moves: Vec<u32>,
}

impl Model for HeldPoints {
    ghost use Rattle.std.specs.Prelude.{◌≤◌, length, map};
    ghost use Rattle.rank_cones.specs.held_points.Held.{Held};
    ghost use Rattle.rank_cones.specs.held_points.Stored.{face_of, edge_of};

    ghost Value = { Held };

    ghost view = { λ h. record { faces = map face_of h.faces.items; edges = map edge_of h.edges.items; face_moves = h.face_moves.items; edge_moves = h.edge_moves.items } };

    ghost invariant = { λ h. (length h.faces.items ≤ 1500000) × (length h.edges.items ≤ 3000000) };
}

/// Puts a rank's faces and edges in the order of their keys: the second half of the interpolation of a distributed
/// `DMPlex`, once the ranks have told each other keys and arrangements.
///
/// `keys` and `arrangements` are those of the rank's faces and then of its edges, in the order of `local`. An arrangement
/// lists the vertices of the point; a triangle's has 4294967295 behind them, and an edge's two numbers that do not matter.
/// Fails only for want of memory.
pub fn held_points(
    alloc: Global,
    local: &LocalPoints,
    keys: &[u64],
    arrangements: &[[u32; 4]],
) -> Result<HeldPoints, NoMemory>
    requires keys { length keys.now ≡ length local.now.faces + length local.now.edges }
    requires arrangements { length arrangements.now ≡ length keys.now }
    ensures faces { IfOk result (λ h. AreByKey (given face_on (take (length local.now.faces) keys.now) (take (length local.now.faces) arrangements.now)) h.faces h.face_moves) }
    ensures edges { IfOk result (λ h. AreByKey (given edge_on (drop (length local.now.faces) keys.now) (drop (length local.now.faces) arrangements.now)) h.edges h.edge_moves) }
{
    let faces = local.faces() as usize;
    prove!(keys.len() == faces + local.edges() as usize);
    let (face_keys, edge_keys) = keys.split_at(faces);
    let (face_lists, edge_lists) = arrangements.split_at(faces);
    let face_order = order_of(alloc, face_keys)?;
    let edge_order = order_of(alloc, edge_keys)?;
    Ok(HeldPoints {
        faces: faces_in(alloc, face_keys, face_lists, &face_order)?,
        edges: edges_in(alloc, edge_keys, edge_lists, &edge_order)?,
        face_moves: moves_of(alloc, face_keys, &face_order)?,
        edge_moves: moves_of(alloc, edge_keys, &edge_order)?,
    })
}

impl HeldPoints {
    /// How many faces there are.
    pub fn faces(&self) -> u32
        ensures count { result ≡ length self.now.faces }
        ensures few { result ≤ 1500000 }
    {
        self.faces.len() as u32
    }

    /// How many edges there are.
    pub fn edges(&self) -> u32
        ensures count { result ≡ length self.now.edges }
        ensures few { result ≤ 3000000 }
    {
        self.edges.len() as u32
    }

    /// Face `k` by key: its key, its polytope, and its vertices in the order of the cell of the key.
    pub fn face(&self, k: u32) -> (PointKey, Poly, &[u32])
        requires { k < length self.now.faces }
        ensures { slice_get self.now.faces k ≡ Some (record { key = result.0.0; poly = result.1; arrangement = result.2.now }) }
    {
        let face = &self.faces[k as usize];
        let key = PointKey(face.key);
        if face.corners[3] == NO_VERTEX {
            (key, Poly::Triangle, &face.corners[..3])
        } else {
            (key, Poly::Quad, &face.corners)
        }
    }

    /// Edge `k` by key: its key, and its ends in the order of the cell of the key.
    pub fn edge(&self, k: u32) -> (PointKey, [u32; 2])
        requires { k < length self.now.edges }
        ensures { slice_get self.now.edges k ≡ Some (record { key = result.0.0; poly = Segment; arrangement = result.1 }) }
    {
        let edge = &self.edges[k as usize];
        (PointKey(edge.key), edge.ends)
    }

    /// The place of the rank's own face `p` among the faces.
    pub fn face_move(&self, p: u32) -> u32
        requires { p < length self.now.face_moves }
        ensures { result ≡ slice_index self.now.face_moves p }
    {
        self.face_moves[p as usize]
    }

    /// The place of the rank's own edge `p` among the edges.
    pub fn edge_move(&self, p: u32) -> u32
        requires { p < length self.now.edge_moves }
        ensures { result ≡ slice_index self.now.edge_moves p }
    {
        self.edge_moves[p as usize]
    }
}
