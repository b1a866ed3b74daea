//! Faces of solids as cells see them, one cell after another.

ghost use Rattle.std.specs.Prelude.{◌≡◌, ◌+◌, ◌<◌, ◌^◌, ◌==◌, map, length, IfOk, if◌then◌else◌};
ghost use Rattle.std.specs.List.{AllByRecursion};
ghost use Rattle.mesh_defs.specs.Tables.{dim_of, corner_count, facets_of, facet_at};
ghost use Rattle.plain_lists.specs.Lists.{picked};
ghost use Rattle.mesh_defs.specs.Points.{cell_faces};
ghost use Rattle.local_points.specs.Cells.{IsFit, AreFit, cell_at, faces_seen};
ghost use Rattle.local_points.specs.Points.{beginnings};
ghost use Rattle.local_points.specs.Stored.{IsFace, face_sight_of};

use crate::cell_list::CellList;
use arrayvec::ArrayVec;
use mesh_defs::Poly;
use plex_base::NoMemory;
use poly_tables::{dim, facet_corner, facet_count, facet_poly};
use rayon::prelude::*;
use std::alloc::Global;
use std::thread::Threads;

/// Stands in the place of the fourth vertex of a triangle.
pub(crate) const NO_VERTEX: u32 = 4294967295;

/// A face as a cell sees it: its key there, and its vertices in the order of the cell's table, with
/// `NO_VERTEX` behind those of a triangle.
#[derive(Clone, Copy, Debug, Default)]
pub(crate) struct Face {
    pub(crate) key: u32,
    pub(crate) corners: [u32; 4],
}

/// The faces of each cell in turn, as the cell sees them. Cells are looked at side by side, in as
/// many threads as there are processors.
pub(crate) fn see_faces<R: Threads + Sync, C: CellList + Sync>(
    rt: &R,
    alloc: Global,
    cells: &C,
) -> Result<Vec<Face>, NoMemory>
    requires { AreFit (C.cells cells.now) }
    ensures sound { IfOk result (λ seen. AllByRecursion IsFace seen.items) }
    ensures faces { IfOk result (λ seen. map face_sight_of seen.items ≡ faces_seen (C.cells cells.now)) }
{
    let seen = (0..cells.len())
        .into_par_iter()
        .flat_map_iter(
            |i: usize| -> ArrayVec<Face, 6>
                requires { (i < length (C.cells cells.now)) × IsFit (cell_at (C.cells cells.now) i) }
                ensures sound { AllByRecursion IsFace result.items }
                ensures faces { map face_sight_of result.items ≡ cell_faces (cell_at (C.cells cells.entry.now) i).0 (cell_at (C.cells cells.entry.now) i).1 }
            { faces_of_cell(cells, i) },
        )
        .collect(rt, alloc)?;
    Ok(seen)
}

/// The faces of cell `i`, where it is a solid.
fn faces_of_cell<C: CellList>(cells: &C, i: usize) -> ArrayVec<Face, 6>
    requires cell { i < length (C.cells cells.now) }
    requires fit { IsFit (cell_at (C.cells cells.now) i) }
    ensures sound { AllByRecursion IsFace result.items }
    ensures faces { map face_sight_of result.items ≡ cell_faces (cell_at (C.cells cells.now) i).0 (cell_at (C.cells cells.now) i).1 }
{
    let mut faces = ArrayVec::new();
    let poly = cells.poly(i);
    if dim(poly) != 3 {
        return faces;
    }
    let corners = cells.corners(i);
    let first_key = 64 * cells.number(i) + 1;
    for f in 0..facet_count(poly) {
        faces.push(face_on(first_key + f as u32, poly, corners, f));
    }
    faces
}

/// Face `f` of a solid with these corners.
fn face_on(key: u32, poly: Poly, corners: &[u32], f: usize) -> Face
    requires solid { dim_of poly ≡ 3 }
    requires corners { length corners.now ≡ corner_count poly }
    requires vertices { AllByRecursion (λ v. v + 1 < 2 ^ 32) corners.now }
    requires facet { f < length (facets_of poly) }
    ensures sound { IsFace result }
    ensures sight { face_sight_of result ≡ record { key = key; poly = (facet_at poly f).poly; arrangement = picked corners.now (facet_at poly f).corners } }
{
    let first = corners[facet_corner(poly, f, 0)];
    let second = corners[facet_corner(poly, f, 1)];
    let third = corners[facet_corner(poly, f, 2)];
    let last = match facet_poly(poly, f) {
        Poly::Quad => corners[facet_corner(poly, f, 3)],
        _ => NO_VERTEX,
    };
    Face {
        key,
        corners: [first, second, third, last],
    }
}

/// Where the faces of each cell begin among those of all; one place more, where the last cell ends.
pub(crate) fn face_firsts<C: CellList>(alloc: Global, cells: &C) -> Result<Vec<u32>, NoMemory>
    requires { AreFit (C.cells cells.now) }
    ensures { IfOk result (λ firsts. firsts.items ≡ beginnings (λ c. cell_faces c.0 c.1) (C.cells cells.now)) }
{
    let mut firsts = Vec::with_capacity(alloc, cells.len() + 1)?;
    let mut end = 0;
    firsts.push(end)?;
    for i in 0..cells.len() {
        end += face_count(cells.poly(i));
        firsts.push(end)?;
    }
    Ok(firsts)
}

/// How many faces a cell of this polytope has: those of a solid, and none of a polygon.
fn face_count(poly: Poly) -> u32
    ensures { result ≡ (if dim_of poly == 3 then length (facets_of poly) else 0) }
{
    if dim(poly) == 3 {
        facet_count(poly) as u32
    } else {
        0
    }
}
