//! What all ranks are given.
ghost use Rattle.std.specs.Prelude.{◌≡◌, ◌<◌, ◌≤◌, length, map, slice_get, slice_index, get_or, Some, None, option_map};
ghost use Rattle.plex_base.specs.Dim.{dim_number};
ghost use Rattle.dist_state.specs.scatter_state.Parts.{cell_at, mark_at, number_of, rows_at, IsRightPart};
ghost use Rattle.dist_state.specs.scatter_state.Whole.{IsWholeScatter, part_at};

use crate::scatter_state::rank_part::RankPart;
use mesh_defs::Poly;
use plex_base::{Dim, Place};
use std::marker::Model;

/// The cells and vertices of a mesh, given to ranks, each with the marks and data on its points. No call
/// takes memory.
#[derive(Debug, Drop)]
pub struct Scatter {
    whole: u32,
    sections: Vec<(Place, u32)>,
    dofs: Vec<[u32; 4]>,
    parts: Vec<RankPart>,
}

impl Model for Scatter {
    ghost use Rattle.rank_defs.specs.Spread.{PlainScatter};
    ghost use Rattle.dist_state.specs.scatter_state.Whole.{IsWholeScatter};

    ghost Value = { PlainScatter };

    ghost view = { λ s. record { whole = s.whole; sections = s.sections.items; dofs = s.dofs.items; parts = s.parts.items } };

    ghost invariant = { λ s. IsWholeScatter (record { whole = s.whole; sections = s.sections.items; dofs = s.dofs.items; parts = s.parts.items }) };
}

impl Scatter {
    /// A mesh of so many cells in all, with data sections of these places and numbers of components, and
    /// fields of so many words by dimension, whose ranks are given these parts.
    ///
    /// There are 1 to 64 ranks, fewer than 2^32 data sections and fields, and on each rank rows of each
    /// data section for each vertex or cell. Takes no memory.
    pub fn of(
        whole: u32,
        sections: Vec<(Place, u32)>,
        dofs: Vec<[u32; 4]>,
        parts: Vec<RankPart>,
    ) -> Scatter
        requires { IsWholeScatter (record { whole = whole; sections = sections.items; dofs = dofs.items; parts = parts.items }) }
        ensures { result ≡ record { whole = whole; sections = sections.items; dofs = dofs.items; parts = parts.items } }
    {
        Scatter {
            whole,
            sections,
            dofs,
            parts,
        }
    }

    /// The number of ranks, 1 to 64.
    pub fn ranks(&self) -> u32
        ensures ranks { result ≡ length self.now.parts }

        // What every scatter keeps.
        ensures whole { IsWholeScatter self.now }
    {
        self.parts.len() as u32
    }

    /// The number of cells of the whole mesh.
    pub fn whole(&self) -> u32
        ensures { result ≡ self.now.whole }
    {
        self.whole
    }

    /// What a rank is given.
    pub fn part(&self, rank: u32) -> &RankPart
        requires { rank < length self.now.parts }
        ensures part { result.now ≡ part_at self.now.parts rank }
    {
        &self.parts[rank as usize]
    }

    /// The places of a rank's cells in the whole mesh, rising.
    pub fn cells(&self, rank: u32) -> &[u32]
        requires { rank < length self.now.parts }
        ensures cells { result.now ≡ map number_of (part_at self.now.parts rank).cells }
        ensures right { IsRightPart (part_at self.now.parts rank) }
    {
        self.part(rank).cells()
    }

    /// The vertices of a rank's cells, by their positions in the whole mesh, rising.
    pub fn vertices(&self, rank: u32) -> &[u32]
        requires { rank < length self.now.parts }
        ensures { result.now ≡ (part_at self.now.parts rank).vertices }
    {
        self.part(rank).vertices()
    }

    /// The owner of the `i`th vertex of a rank: the least rank whose cells have it.
    pub fn vertex_owner(&self, rank: u32, i: u32) -> u32
        requires rank { rank < length self.now.parts }
        requires place { i < length (part_at self.now.parts rank).vertices }
        ensures { result ≡ slice_index (part_at self.now.parts rank).owners i }
    {
        self.part(rank).owner(i as usize)
    }

    /// The polytope of the `i`th cell of a rank.
    pub fn poly(&self, rank: u32, i: u32) -> Poly
        requires rank { rank < length self.now.parts }
        requires place { i < length (part_at self.now.parts rank).cells }
        ensures { result ≡ (cell_at (part_at self.now.parts rank).cells i).1.poly }
    {
        self.part(rank).poly(i as usize)
    }

    /// The vertices of the `i`th cell of a rank, in the order of its polytope's corners.
    pub fn list(&self, rank: u32, i: u32) -> &[u32]
        requires rank { rank < length self.now.parts }
        requires place { i < length (part_at self.now.parts rank).cells }
        ensures { result.now ≡ (cell_at (part_at self.now.parts rank).cells i).1.vertices }
    {
        self.part(rank).corners(i as usize)
    }

    /// The coordinates of the `i`th vertex of a rank, in 10^-10.
    pub fn at(&self, rank: u32, i: u32) -> [i64; 3]
        requires rank { rank < length self.now.parts }
        requires place { i < length (part_at self.now.parts rank).vertices }
        ensures { slice_get (part_at self.now.parts rank).at i ≡ Some result }
    {
        self.part(rank).at(i as usize)
    }

    /// How many marks a rank is given: those on points of its cells.
    pub fn marks(&self, rank: u32) -> u32
        requires { rank < length self.now.parts }
        ensures { result ≡ length (part_at self.now.parts rank).marks }
    {
        self.part(rank).marks()
    }

    /// The dimension and the vertices of the point of the `i`th mark of a rank, and its label value.
    pub fn mark(&self, rank: u32, i: u32) -> (Dim, &[u32], i32)
        requires rank { rank < length self.now.parts }
        requires place { i < length (part_at self.now.parts rank).marks }
        ensures { mark_at (part_at self.now.parts rank).marks i ≡ record { dim = dim_number result.0; vertices = result.1.now; value = result.2 } }
    {
        self.part(rank).mark(i as usize)
    }

    /// How many data sections there are.
    pub fn sections(&self) -> u32
        ensures { result ≡ length self.now.sections }
    {
        self.sections.len() as u32
    }

    /// Whether the rows of data section `f`, from 0, belong to vertices or to cells, and how many values
    /// each has.
    pub fn section(&self, f: u32) -> (Place, u32)
        requires { f < length self.now.sections }
        ensures { slice_get self.now.sections f ≡ Some result }
    {
        self.sections[f as usize]
    }

    /// The values that data section `f` has for the `i`th vertex or cell of a rank, in 10^-10; none where
    /// it has no row.
    pub fn row(&self, rank: u32, f: u32, i: u32) -> Option<&[i64]>
        requires rank { rank < length self.now.parts }
        requires section { f < length self.now.sections }
        requires place { i < length (rows_at (part_at self.now.parts rank).rows f) }
        ensures { option_map (λ values. values.now) result ≡ get_or (rows_at (part_at self.now.parts rank).rows f) i None }
    {
        self.part(rank).row(f as usize, i as usize)
    }

    /// How many fields of words by dimension there are beside the data sections.
    pub fn dofs(&self) -> u32
        ensures { result ≡ length self.now.dofs }
    {
        self.dofs.len() as u32
    }

    /// How many words field `i` of these, from 0, has at each point of dimension 0, 1, 2 and 3.
    pub fn dof(&self, i: u32) -> [u32; 4]
        requires { i < length self.now.dofs }
        ensures { slice_get self.now.dofs i ≡ Some result }
    {
        self.dofs[i as usize]
    }
}
