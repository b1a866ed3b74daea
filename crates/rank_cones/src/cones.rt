//! The cones of cells and of faces, one after another in one vector.

ghost use Rattle.std.specs.Prelude.{◌≡◌, ◌⊎◌, ◌+◌, ◌<◌, ◌==◌, ◌^◌, false, if◌then◌else◌, length, OnOk, IfErr};
ghost use Rattle.std.specs.List.{list_any};
ghost use Rattle.mesh_defs.specs.Tables.{dim_of, corner_count, facets_of};
ghost use Rattle.mesh_defs.specs.Points.{cell_faces};
ghost use Rattle.rank_laws.specs.diagram_laws.Strata.{cone_from};
ghost use Rattle.local_points.specs.Cells.{cell_at};
ghost use Rattle.local_points.specs.Points.{local_points};
ghost use Rattle.rank_chart_laws.specs.rank_diagram_laws.Parts.{HasFacets};
ghost use Rattle.rank_cones.specs.Placed.{ArePlaced, IsOn, IsFirstTwist, is_twisted, sight_at};
ghost use Rattle.rank_cones.specs.Seen.{HasSides};

use crate::faces::face_entry;
use crate::held_points::HeldPoints;
use crate::sides::{cell_side, face_side};
use crate::stop::Stop;
use local_points::{CellList, LocalPoints};
use mesh_defs::ConeEntry;
use plex_base::NoMemory;
use poly_tables::{dim, edge_count, facet_count};

/// The cone of cell `i`: faces of a solid, edges of a polygon, where these are numbered from `base`.
pub(crate) fn cell_cone<C: CellList>(
    cone: &mut Vec<ConeEntry>,
    base: u32,
    cells: &C,
    local: &LocalPoints,
    held: &HeldPoints,
    i: usize,
) -> Result<(), Stop>
    requires local { local.now ≡ local_points (C.cells cells.now) }
    requires placed { ArePlaced local.now held.now }
    requires cell { i < length (C.cells cells.now) }
    requires kind { IsOn 3 held.now.faces (cell_at (C.cells cells.now) i).1 ⊎ IsOn 2 held.now.edges (cell_at (C.cells cells.now) i).1 }
    requires faces { base + length held.now.faces < 2 ^ 32 }
    requires edges { base + length held.now.edges < 2 ^ 32 }
    ensures cone { OnOk result (cone.new.items ≡ cone_from base (if dim_of (cell_at (C.cells cells.now) i).1.poly == 3 then held.now.faces else held.now.edges) (cell_at (C.cells cells.now) i).1.poly (cell_at (C.cells cells.now) i).1.vertices) }
    ensures untwisted { OnOk result (list_any (is_twisted held.now.faces) (cell_faces (cell_at (C.cells cells.now) i).0 (cell_at (C.cells cells.now) i).1) ≡ false) }
    ensures stop { IfErr result (λ stop. IsFirstTwist held.now.faces (cell_faces (cell_at (C.cells cells.now) i).0 (cell_at (C.cells cells.now) i).1) stop) }
{
    if dim(cells.poly(i)) == 3 {
        solid_cone(cone, base, cells, local, held, i)
    } else {
        Ok(polygon_cone(cone, base, cells, local, held, i)?)
    }
}

/// The faces of cell `i`, a solid, where the faces are numbered from `base`.
fn solid_cone<C: CellList>(
    cone: &mut Vec<ConeEntry>,
    base: u32,
    cells: &C,
    local: &LocalPoints,
    held: &HeldPoints,
    i: usize,
) -> Result<(), Stop>
    requires local { local.now ≡ local_points (C.cells cells.now) }
    requires placed { ArePlaced local.now held.now }
    requires cell { i < length (C.cells cells.now) }
    requires solid { IsOn 3 held.now.faces (cell_at (C.cells cells.now) i).1 }
    requires room { base + length held.now.faces < 2 ^ 32 }
    ensures cone { OnOk result (cone.new.items ≡ cone_from base held.now.faces (cell_at (C.cells cells.now) i).1.poly (cell_at (C.cells cells.now) i).1.vertices) }
    ensures untwisted { OnOk result (list_any (is_twisted held.now.faces) (cell_faces (cell_at (C.cells cells.now) i).0 (cell_at (C.cells cells.now) i).1) ≡ false) }
    ensures stop { IfErr result (λ stop. IsFirstTwist held.now.faces (cell_faces (cell_at (C.cells cells.now) i).0 (cell_at (C.cells cells.now) i).1) stop) }
{
    cone.clear();
    for f in 0..facet_count(cells.poly(i)) {
        let entry = face_entry(base, cells, local, held, i, f)?;
        cone.push(entry)?;
    }
    Ok(())
}

/// The edges of cell `i`, a polygon, where the edges are numbered from `base`.
fn polygon_cone<C: CellList>(
    cone: &mut Vec<ConeEntry>,
    base: u32,
    cells: &C,
    local: &LocalPoints,
    held: &HeldPoints,
    i: usize,
) -> Result<(), NoMemory>
    requires local { local.now ≡ local_points (C.cells cells.now) }
    requires placed { ArePlaced local.now held.now }
    requires cell { i < length (C.cells cells.now) }
    requires flat { IsOn 2 held.now.edges (cell_at (C.cells cells.now) i).1 }
    requires room { base + length held.now.edges < 2 ^ 32 }
    ensures { OnOk result (cone.new.items ≡ cone_from base held.now.edges (cell_at (C.cells cells.now) i).1.poly (cell_at (C.cells cells.now) i).1.vertices) }
{
    cone.clear();
    for e in 0..edge_count(cells.poly(i)) {
        cone.push(cell_side(base, cells, local, held, i, e))?;
    }
    Ok(())
}

/// The edges of face `k`, which cell `i` has, where the edges are numbered from `base`.
pub(crate) fn face_cone<C: CellList>(
    cone: &mut Vec<ConeEntry>,
    base: u32,
    cells: &C,
    local: &LocalPoints,
    held: &HeldPoints,
    i: usize,
    k: u32,
) -> Result<(), NoMemory>
    requires local { local.now ≡ local_points (C.cells cells.now) }
    requires placed { ArePlaced local.now held.now }
    requires cell { i < length (C.cells cells.now) }
    requires corners { length (cell_at (C.cells cells.now) i).1.vertices ≡ corner_count (cell_at (C.cells cells.now) i).1.poly }
    requires face { k < length held.now.faces }
    requires seen { HasSides (cell_at (C.cells cells.now) i) (sight_at held.now.faces k) }
    requires sides { HasFacets held.now.edges (facets_of (sight_at held.now.faces k).poly) (sight_at held.now.faces k).arrangement }
    requires room { base + length held.now.edges < 2 ^ 32 }
    ensures { OnOk result (cone.new.items ≡ cone_from base held.now.edges (sight_at held.now.faces k).poly (sight_at held.now.faces k).arrangement) }
{
    cone.clear();
    for j in 0..edge_count(held.face(k).1) {
        cone.push(face_side(base, cells, local, held, i, k, j))?;
    }
    Ok(())
}
