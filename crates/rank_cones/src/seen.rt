//! Which cell of a rank has each of the faces that the rank holds.

ghost use Rattle.std.specs.Prelude.{◌≡◌, ℕ, ◌<◌, ◌^◌, length, slice_index, IfOk};
ghost use Rattle.local_points.specs.Points.{local_points};
ghost use Rattle.rank_cones.specs.Placed.{ArePlaced};
ghost use Rattle.rank_cones.specs.Seen.{HasFace, AreSeeing, AreSolidsOn};

use crate::held_points::HeldPoints;
use local_points::{CellList, LocalPoints};
use plex_base::NoMemory;
use poly_tables::{dim, facet_count};
use std::alloc::Global;

/// For each face by key a cell that has it. Of a face that no cell has, nothing is told.
pub(crate) fn seeing_cells<C: CellList>(
    alloc: Global,
    cells: &C,
    local: &LocalPoints,
    held: &HeldPoints,
) -> Result<Vec<u32>, NoMemory>
    requires local { local.now ≡ local_points (C.cells cells.now) }
    requires placed { ArePlaced local.now held.now }
    requires solids { AreSolidsOn held.now.faces (C.cells cells.now) }
    requires few { length (C.cells cells.now) < 2 ^ 32 }
    ensures { IfOk result (λ seeing. AreSeeing (C.cells cells.now) held.now.faces seeing.items) }
{
    let mut seeing = vec![in alloc; 0; held.faces() as usize]?;
    for i in 0..cells.len() {
        note_faces(&mut seeing, cells, local, held, i);
    }
    Ok(seeing)
}

/// Notes for each face of cell `i`, where this is a solid, that the cell has it.
fn note_faces<C: CellList>(
    seeing: &mut [u32],
    cells: &C,
    local: &LocalPoints,
    held: &HeldPoints,
    i: usize,
)
    requires local { local.now ≡ local_points (C.cells cells.now) }
    requires placed { ArePlaced local.now held.now }
    requires solids { AreSolidsOn held.now.faces (C.cells cells.now) }
    requires few { length (C.cells cells.now) < 2 ^ 32 }
    requires cell { i < length (C.cells cells.now) }
    requires count { length seeing.old ≡ length held.now.faces }
    ensures noted { (k : ℕ) → HasFace (C.cells cells.now) held.now.faces k i → HasFace (C.cells cells.now) held.now.faces k (slice_index seeing.new k) }
    ensures kept { (k : ℕ) → HasFace (C.cells cells.now) held.now.faces k (slice_index seeing.old k) → HasFace (C.cells cells.now) held.now.faces k (slice_index seeing.new k) }
    ensures count { length seeing.new ≡ length seeing.old }
{
    let poly = cells.poly(i);
    if dim(poly) != 3 {
        return;
    }
    for f in 0..facet_count(poly) {
        let k = held.face_move(local.face_of(i, f));
        seeing[k as usize] = i as u32;
    }
}
