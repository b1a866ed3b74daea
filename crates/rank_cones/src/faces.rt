//! The entries of the cones of solids: their faces.

ghost use Rattle.std.specs.Prelude.{◌≡◌, ◌+◌, ◌*◌, ◌<◌, ◌^◌, None, Some, length, MatchResult};
ghost use Rattle.std.specs.List.{AllByRecursion};
ghost use Rattle.plain_lists.specs.Lists.{picked};
ghost use Rattle.mesh_defs.specs.Tables.{facets_of, facet_at};
ghost use Rattle.rank_laws.specs.diagram_laws.Strata.{entry_from, turn_among};
ghost use Rattle.local_points.specs.Cells.{cell_at};
ghost use Rattle.local_points.specs.Points.{local_points};
ghost use Rattle.rank_cones.specs.Placed.{ArePlaced, IsOn};

use crate::held_points::HeldPoints;
use local_points::{CellList, LocalPoints};
use mesh_defs::{ConeEntry, Poly};
use plex_base::PointKey;
use poly_orient::relative;
use poly_tables::{facet_corner, facet_poly, vertex_count};

/// The vertices of facet `f` of a polytope with these corners, into `seen`.
fn list_facet(poly: Poly, f: usize, corners: &[u32], seen: &mut [u32])
    requires facet { f < length (facets_of poly) }
    requires within { AllByRecursion (λ k. k < length corners.now) (facet_at poly f).corners }
    requires room { length seen.old ≡ length (facet_at poly f).corners }
    ensures { seen.new ≡ picked corners.now (facet_at poly f).corners }
{
    for j in 0..seen.len() {
        seen[j] = corners[facet_corner(poly, f, j)];
    }
}

/// The entry of face `f` of cell `i`, a solid, where the faces are numbered from `base`; or the face's key in this cell,
/// where the cell sees it under no orientation.
pub(crate) fn face_entry<C: CellList>(
    base: u32,
    cells: &C,
    local: &LocalPoints,
    held: &HeldPoints,
    i: usize,
    f: usize,
) -> Result<ConeEntry, PointKey>
    requires local { local.now ≡ local_points (C.cells cells.now) }
    requires placed { ArePlaced local.now held.now }
    requires cell { i < length (C.cells cells.now) }
    requires solid { IsOn 3 held.now.faces (cell_at (C.cells cells.now) i).1 }
    requires face { f < length (facets_of (cell_at (C.cells cells.now) i).1.poly) }
    requires room { base + length held.now.faces < 2 ^ 32 }
    ensures { let cell = cell_at (C.cells cells.now) i in let facet = facet_at cell.1.poly f in let list = picked cell.1.vertices facet.corners in MatchResult result (λ e. (e ≡ entry_from base held.now.faces facet.poly list) × (turn_among held.now.faces facet.poly list ≡ Some e.o)) (λ key. (key.0 ≡ 64 * cell.0 + 1 + f) × (turn_among held.now.faces facet.poly list ≡ None)) }
{
    let poly = cells.poly(i);
    let face = facet_poly(poly, f);
    let mut room = [0; 4];
    let seen = &mut room[..vertex_count(face)];
    list_facet(poly, f, cells.corners(i), seen);
    let k = held.face_move(local.face_of(i, f));
    let (_, _, own) = held.face(k);
    match relative(face, own, seen) {
        Some(o) => Ok(ConeEntry { point: base + k, o }),
        None => Err(PointKey::of_face(cells.number(i), f as u32)),
    }
}
