//! What one rank is given.
ghost use Rattle.std.specs.Prelude.{◌≡◌, ◌<◌, [], length, map, slice_get, slice_index, get_or, Some, None, option_map};
ghost use Rattle.plex_base.specs.Dim.{dim_number};
ghost use Rattle.dist_state.specs.scatter_state.Parts.{part_of, AreRightLists, IsRightPart, cell_at, mark_at, number_of, rows_at};

use mesh_defs::Poly;
use plex_base::Dim;
use sf_fabric::FlatLists;
use std::marker::Model;

/// What a mark says beside its vertices: the dimension of its point, and its label value.
#[derive(Clone, Copy, Debug)]
pub struct MarkHead {
    pub dim: Dim,
    pub value: i32,
}

/// The lists of a [`RankPart`].
#[derive(Debug, Drop)]
pub struct PartLists {
    /// The places of the cells in the whole mesh, rising.
    pub cells: Vec<u32>,
    /// The polytope of each cell.
    pub polys: Vec<Poly>,
    /// The vertices of each cell, in the order of its polytope's corners.
    pub corners: FlatLists<u32>,
    /// The vertices of the cells, by their positions in the whole mesh, rising.
    pub vertices: Vec<u32>,
    /// The owner of each vertex.
    pub owners: Vec<u32>,
    /// The coordinates of each vertex, in 10^-10.
    pub at: Vec<[i64; 3]>,
    /// The dimension and the value of each mark.
    pub marks: Vec<MarkHead>,
    /// The vertices of each mark.
    pub mark_vertices: FlatLists<u32>,
    /// For each data section the values of each vertex or cell, in 10^-10: none where it has no row.
    pub rows: Vec<FlatLists<i64>>,
}

/// What one rank is given: its cells with their vertices, and the marks and data on its points. No
/// call takes memory.
#[derive(Debug, Drop)]
pub struct RankPart {
    lists: PartLists,
}

impl Model for RankPart {
    ghost use Rattle.rank_defs.specs.Spread.{ScatterPart};
    ghost use Rattle.dist_state.specs.scatter_state.Parts.{part_of, AreRightLists};

    ghost Value = { ScatterPart };

    ghost view = { λ p. part_of p.lists };

    ghost invariant = { λ p. AreRightLists p.lists };
}

impl RankPart {
    /// The part of these lists. There are as many polytopes and lists of corners as cells, as many owners
    /// and coordinates as vertices, and as many lists of vertices as marks, which are fewer than 2^32.
    pub fn of(lists: PartLists) -> RankPart
        requires { AreRightLists lists }
        ensures { result ≡ part_of lists }
    {
        RankPart { lists }
    }

    /// The places of the cells in the whole mesh, rising.
    pub fn cells(&self) -> &[u32]
        ensures cells { result.now ≡ map number_of self.now.cells }

        // What every part keeps.
        ensures right { IsRightPart self.now }
    {
        &self.lists.cells
    }

    /// The polytope of the `i`th cell.
    pub fn poly(&self, i: usize) -> Poly
        requires { i < length self.now.cells }
        ensures { result ≡ (cell_at self.now.cells i).1.poly }
    {
        self.lists.polys[i]
    }

    /// The vertices of the `i`th cell, in the order of its polytope's corners.
    pub fn corners(&self, i: usize) -> &[u32]
        requires { i < length self.now.cells }
        ensures { result.now ≡ (cell_at self.now.cells i).1.vertices }
    {
        self.lists.corners.list(i)
    }

    /// The vertices of the cells, by their positions in the whole mesh, rising.
    pub fn vertices(&self) -> &[u32]
        ensures { result.now ≡ self.now.vertices }
    {
        &self.lists.vertices
    }

    /// The rank that owns the `i`th vertex.
    pub fn owner(&self, i: usize) -> u32
        requires { i < length self.now.vertices }
        ensures { result ≡ slice_index self.now.owners i }
    {
        self.lists.owners[i]
    }

    /// The coordinates of the `i`th vertex, in 10^-10.
    pub fn at(&self, i: usize) -> [i64; 3]
        requires { i < length self.now.vertices }
        ensures { slice_get self.now.at i ≡ Some result }
    {
        self.lists.at[i]
    }

    /// How many marks there are on points of the cells.
    pub fn marks(&self) -> u32
        ensures { result ≡ length self.now.marks }
    {
        self.lists.marks.len() as u32
    }

    /// The dimension and the vertices of the point of the `i`th mark, and its label value.
    pub fn mark(&self, i: usize) -> (Dim, &[u32], i32)
        requires { i < length self.now.marks }
        ensures { mark_at self.now.marks i ≡ record { dim = dim_number result.0; vertices = result.1.now; value = result.2 } }
    {
        let head = &self.lists.marks[i];
        (head.dim, self.lists.mark_vertices.list(i), head.value)
    }

    /// The values that data section `f` has for the `i`th vertex or cell, in 10^-10; none where it has
    /// no row.
    pub fn row(&self, f: usize, i: usize) -> Option<&[i64]>
        requires section { f < length self.now.rows }
        requires place { i < length (rows_at self.now.rows f) }
        ensures { option_map (λ values. values.now) result ≡ get_or (rows_at self.now.rows f) i None }
    {
        let values = self.lists.rows[f].list(i);
        if values.is_empty() {
            None
        } else {
            Some(values)
        }
    }
}
