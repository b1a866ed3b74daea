//! Where the points of marks stand among the points of a part.

ghost use Rattle.std.specs.Prelude.{◌≡◌, ◌≢◌, ◌==◌, ◌<◌, ◌^◌, true, length, Some, IfOk, OnOk};
ghost use Rattle.std.specs.List.{list_any, position_or_len};
ghost use Rattle.mesh_defs.specs.Points.{marked_point};
ghost use Rattle.mesh_defs.specs.Diagram.{place_in};
ghost use Rattle.local_points.specs.Points.{local_points};
ghost use Rattle.rank_chart_laws.specs.meeting_laws.Sets.{Rising};
ghost use Rattle.mesh_defs.specs.Tables.{dim_of};
ghost use Rattle.dist_state.specs.scatter_state.Parts.{cell_at, mark_at};
ghost use Rattle.interp_share.specs.part_labels.Parts.{IsSomePart, points_of_part};
ghost use Rattle.interp_share.specs.part_labels.Sets.{IsTableOf, IsTableOrNone};

use crate::part_labels::cells::CellTable;
use dist_state::scatter_state::RankPart;
use local_points::PointFinder;
use plex_base::{Dim, NoMemory};
use poly_tables::dim as dim_of_poly;

/// The place of a vertex among rising ones.
fn vertex_place(vertices: &[u32], vertex: u32) -> u32
    requires rising { Rising vertices.now }
    requires there { list_any (λ w. w == vertex) vertices.now ≡ true }
    requires few { length vertices.now < 2 ^ 32 }
    ensures { result ≡ position_or_len (λ w. w == vertex) vertices.now }
{
    match vertices.binary_search(&vertex) {
        Ok(place) => place as u32,
        Err(place) => place as u32,
    }
}

/// The place of the point below the cells that mark `i` is on.
fn lower_place(part: &RankPart, finder: &PointFinder, i: usize) -> Option<u32>
    requires given { IsSomePart part.now }
    requires local { finder.now ≡ local_points part.now.cells }
    requires mark { i < length part.now.marks }
    requires lower { (mark_at part.now.marks i).dim ≢ dim_of (cell_at part.now.cells 0).1.poly }
    ensures { result ≡ Some (place_in (points_of_part part.now) (marked_point (mark_at part.now.marks i))) }
{
    let (dim, vertices, _) = part.mark(i);
    let cells = part.cells().len() as u32;
    let behind_vertices = cells + part.vertices().len() as u32;
    match dim {
        Dim::Zero => Some(cells + vertex_place(part.vertices(), vertices[0])),
        Dim::One => {
            let k = finder.find_edge(vertices[0], vertices[1])?;
            Some(behind_vertices + finder.local().faces() + k)
        }
        _ => Some(behind_vertices + finder.find_face(vertices)?),
    }
}

/// The place of the point that mark `i` is on. The cells are found by their vertices at the first mark on a
/// cell.
pub(crate) fn marked_place(
    part: &RankPart,
    finder: &PointFinder,
    cells: &mut CellTable,
    i: usize,
) -> Result<Option<u32>, NoMemory>
    requires given { IsSomePart part.now }
    requires local { finder.now ≡ local_points part.now.cells }
    requires table { IsTableOrNone part.now.cells cells.old.sets.keys }
    requires mark { i < length part.now.marks }
    ensures place { IfOk result (λ place. place ≡ Some (place_in (points_of_part part.now) (marked_point (mark_at part.now.marks i)))) }
    ensures table { OnOk result (IsTableOrNone part.now.cells cells.new.sets.keys) }
{
    let (dim, vertices, _) = part.mark(i);
    if dim.number() != dim_of_poly(part.poly(0)) {
        return Ok(lower_place(part, finder, i));
    }
    cells.fill(part)?;
    Ok(cells.find(part, vertices))
}
