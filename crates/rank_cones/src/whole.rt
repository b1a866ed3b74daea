//! The diagram of a rank in one piece.

ghost use Rattle.std.specs.Prelude.{◌≡◌, ℕ, List, None, IfOk, OnOk, IfErr};
ghost use Rattle.mesh_defs.specs.Mesh.{Mesh};
ghost use Rattle.rank_laws.specs.diagram_laws.Strata.{face_sights, first_twist};
ghost use Rattle.plex_base.specs.Dim.{dim_number};
ghost use Rattle.rank_chart_laws.specs.rank_diagram_laws.Parts.{parts_diagram};
ghost use Rattle.rank_cones.specs.Placed.{IsFirstTwist};
ghost use Rattle.rank_cones.specs.Assembly.{rank_parts, AreWhole};
ghost use Rattle.rank_cones.specs.Ranks.{IsRank, Draws};

use crate::assembly::{push_cells, push_edges, push_faces, push_vertices};
use crate::drawn::Drawn;
use crate::held_points::HeldPoints;
use crate::stop::Stop;
use local_points::{CellList, LocalPoints};
use plex_base::{Dim, NoMemory};
use plex_chart::{Plex, PlexBuilder};
use std::alloc::Global;

/// The diagram of what a rank holds without overlap, with the orientations under which its cells see what they share:
/// the last step of `DMPlexInterpolate` on a distributed `DMPlex`. Or the least key of a face that one of its cells sees
/// under no orientation.
///
/// `cells` are the cells of the rank and `vertices` their vertices, both rising; `local` has the faces and edges as these
/// cells see them, and `held` the same by key. Points are numbered from 0: cells, vertices, faces, edges. Fails only for
/// want of memory.
pub fn rank_plex<C: CellList>(
    alloc: Global,
    dim: Dim,
    cells: &C,
    vertices: &[u32],
    local: &LocalPoints,
    held: &HeldPoints,
) -> Result<Drawn, NoMemory>
    requires { (m : Mesh) × (n : ℕ) × (a : List ℕ) × (r : ℕ) × IsRank m n a r (dim_number dim) (C.cells cells.now) vertices.now local.now held.now }
    ensures { IfOk result (λ drawn. (m : Mesh) (n : ℕ) (a : List ℕ) (r : ℕ) → IsRank m n a r (dim_number dim) (C.cells cells.now) vertices.now local.now held.now → Draws m a r drawn) }
{
    match assemble(alloc, dim, cells, vertices, local, held) {
        Ok(plex) => Ok(Drawn::Whole(plex)),
        Err(Stop::Twist(key)) => Ok(Drawn::Twisted(key)),
        Err(Stop::NoMemory) => Err(NoMemory),
    }
}

/// The diagram of these parts, or what stops it.
fn assemble<C: CellList>(
    alloc: Global,
    dim: Dim,
    cells: &C,
    vertices: &[u32],
    local: &LocalPoints,
    held: &HeldPoints,
) -> Result<Plex, Stop>
    requires whole { AreWhole (rank_parts (dim_number dim) (C.cells cells.now) vertices.now held.now) local.now held.now }
    ensures plex { IfOk result (λ plex. plex ≡ parts_diagram (rank_parts (dim_number dim) (C.cells cells.now) vertices.now held.now)) }
    ensures untwisted { OnOk result (first_twist held.now.faces (face_sights (C.cells cells.now)) ≡ None) }
    ensures stop { IfErr result (λ stop. IsFirstTwist held.now.faces (face_sights (C.cells cells.now)) stop) }
{
    let (count, ends) = (cells.len() as u32, vertices.len() as u32);
    let mut plex = PlexBuilder::new(alloc, dim, count, ends, held.faces(), held.edges());
    let mut cone = Vec::new(alloc);
    push_cells(&mut plex, &mut cone, cells, vertices, local, held)?;
    push_vertices(&mut plex, ends)?;
    push_faces(alloc, &mut plex, &mut cone, cells, vertices, local, held)?;
    push_edges(&mut plex, cells, vertices, held)?;
    Ok(plex.finish()?)
}
