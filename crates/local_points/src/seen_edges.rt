//! Edges as cells see them, one cell after another.

ghost use Rattle.std.specs.Prelude.{◌≡◌, ◌<◌, map, length, IfOk};
ghost use Rattle.mesh_defs.specs.Points.{cell_edges};
ghost use Rattle.local_points.specs.Cells.{IsFit, AreFit, cell_at, edges_seen};
ghost use Rattle.local_points.specs.Points.{beginnings};
ghost use Rattle.local_points.specs.Stored.{edge_sight_of};

use crate::cell_list::CellList;
use arrayvec::ArrayVec;
use plex_base::NoMemory;
use poly_tables::{edge_corner, edge_count};
use rayon::prelude::*;
use std::alloc::Global;
use std::thread::Threads;

/// An edge as a cell sees it: its key there, and its ends in the order of the cell's table.
#[derive(Clone, Copy, Debug, Default)]
pub(crate) struct Edge {
    pub(crate) key: u32,
    pub(crate) ends: [u32; 2],
}

/// The edges of each cell in turn, as the cell sees them. Cells are looked at side by side, in as
/// many threads as there are processors.
pub(crate) fn see_edges<R: Threads + Sync, C: CellList + Sync>(
    rt: &R,
    alloc: Global,
    cells: &C,
) -> Result<Vec<Edge>, NoMemory>
    requires { AreFit (C.cells cells.now) }
    ensures { IfOk result (λ seen. map edge_sight_of seen.items ≡ edges_seen (C.cells cells.now)) }
{
    let seen = (0..cells.len())
        .into_par_iter()
        .flat_map_iter(
            |i: usize| -> ArrayVec<Edge, 12>
                requires { (i < length (C.cells cells.now)) × IsFit (cell_at (C.cells cells.now) i) }
                ensures { map edge_sight_of result.items ≡ cell_edges (cell_at (C.cells cells.entry.now) i).0 (cell_at (C.cells cells.entry.now) i).1 }
            { edges_of_cell(cells, i) },
        )
        .collect(rt, alloc)?;
    Ok(seen)
}

/// The edges of cell `i`.
fn edges_of_cell<C: CellList>(cells: &C, i: usize) -> ArrayVec<Edge, 12>
    requires cell { i < length (C.cells cells.now) }
    requires fit { IsFit (cell_at (C.cells cells.now) i) }
    ensures { map edge_sight_of result.items ≡ cell_edges (cell_at (C.cells cells.now) i).0 (cell_at (C.cells cells.now) i).1 }
{
    let poly = cells.poly(i);
    let corners = cells.corners(i);
    let first_key = 64 * cells.number(i) + 8;
    let mut edges = ArrayVec::new();
    for e in 0..edge_count(poly) {
        let from = corners[edge_corner(poly, e, 0)];
        let to = corners[edge_corner(poly, e, 1)];
        edges.push(Edge {
            key: first_key + e as u32,
            ends: [from, to],
        });
    }
    edges
}

/// Where the edges of each cell begin among those of all; one place more, where the last cell ends.
pub(crate) fn edge_firsts<C: CellList>(alloc: Global, cells: &C) -> Result<Vec<u32>, NoMemory>
    requires { AreFit (C.cells cells.now) }
    ensures { IfOk result (λ firsts. firsts.items ≡ beginnings (λ c. cell_edges c.0 c.1) (C.cells cells.now)) }
{
    let mut firsts = Vec::with_capacity(alloc, cells.len() + 1)?;
    let mut end = 0;
    firsts.push(end)?;
    for i in 0..cells.len() {
        end += edge_count(cells.poly(i)) as u32;
        firsts.push(end)?;
    }
    Ok(firsts)
}
