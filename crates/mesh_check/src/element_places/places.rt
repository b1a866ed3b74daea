//! The places where the elements of a file stand.

ghost use Rattle.std.specs.Prelude.{◌≡◌, ◌<◌, length, map, slice_index, IfOk};
ghost use Rattle.std.specs.List.{AllByRecursion, position};
ghost use Rattle.plain_lists.specs.Lists.{same_set};
ghost use Rattle.plex_base.specs.Dim.{dim_number};
ghost use Rattle.input_defs.specs.Content.{Element};
ghost use Rattle.input_defs.specs.Meshes.{kept, greatest_dim, cell_elements};
ghost use Rattle.input_laws.specs.place_laws.Places.{IsPlace, stands_on, firsts_of, element_at};

use crate::element_places::cells::{CellList, count_kept, greatest_dim, list_cells};
use crate::element_places::key::{Key, key_on};
use crate::element_places::table::{PlaceTable, first_at_places};
use msh_reader::MshText;
use plex_base::{Dim, NoMemory};
use std::alloc::Global;
use std::collections::HashMap;
use std::marker::Model;

/// The places where the elements of a mesh file stand, a place being a dimension and a set of nodes.
/// Contracts see it as the content of the file. No call but `of` takes memory.
#[derive(Drop)]
pub struct ElementPlaces<'a> {
    text: &'a MshText,
    by_key: HashMap<Key, u32>,
    firsts: Vec<u32>,
    greatest: Dim,
    kept: u32,
    cells: CellList,
}

impl<'a> Model for ElementPlaces<'a> {
    ghost use Rattle.input_defs.specs.Content.{Content};

    ghost Value = { Content };

    ghost view = { λ p. p.text.now };

    ghost use Rattle.mesh_check.specs.element_places.Found.{ArePlaces};

    ghost invariant = { λ p. ArePlaces p.text.now p.by_key p.firsts.items p.greatest p.kept p.cells.places.items p.cells.before.items };
}

impl<'a> ElementPlaces<'a> {
    /// Finds the places of the elements of a file, in one pass and one look-up for each element.
    pub fn of(alloc: Global, text: &'a MshText) -> Result<ElementPlaces<'a>, NoMemory>
        ensures { IfOk result (λ places. places ≡ text.now) }
    {
        let PlaceTable { by_key, firsts } = first_at_places(alloc, text)?;
        let greatest = greatest_dim(text);
        let kept = count_kept(text, &firsts);
        let cells = list_cells(alloc, text, &firsts, greatest)?;
        Ok(ElementPlaces {
            text,
            by_key,
            firsts,
            greatest,
            kept,
            cells,
        })
    }

    /// The file.
    pub fn text(&self) -> &'a MshText
        ensures { result.now ≡ self.now }
    {
        self.text
    }

    /// The greatest dimension of an element, or 0 where there is none.
    pub fn greatest_dim(&self) -> Dim
        ensures { dim_number result ≡ greatest_dim self.now }
    {
        self.greatest
    }

    /// How many elements are not merged with earlier ones.
    pub fn kept(&self) -> u32
        ensures { result ≡ length (kept self.now) }
    {
        self.kept
    }

    /// The place in the file of the first element where the element at place `i` stands. It is `i`
    /// just where that element is not merged.
    pub fn first(&self, i: usize) -> usize
        requires { i < length self.now.elements }
        ensures first { result ≡ slice_index (firsts_of self.now.elements) i }
        ensures in_range { result < length self.now.elements }
    {
        self.firsts[i] as usize
    }

    /// The place in the file of the first element of a dimension on these 1 to 8 nodes, none where
    /// there is no such element. No node has the number 0.
    pub fn first_on(&self, dim: Dim, nodes: &[u32]) -> Option<usize>
        requires { IsPlace nodes.now }
        ensures { result ≡ position (stands_on (dim_number dim) nodes.now) self.now.elements }
    {
        let key = key_on(dim, nodes);
        match self.by_key.get(&key) {
            Some(first) => Some(*first as usize),
            None => None,
        }
    }

    /// The places in the file of the elements that become cells, in their order: those of the
    /// greatest dimension that are not merged.
    pub fn cells(&self) -> &[u32]
        ensures cells { map (element_at self.now.elements) result.now ≡ cell_elements self.now }
        ensures in_range { AllByRecursion (λ i. i < length self.now.elements) result.now }
    {
        &self.cells.places
    }

    /// The place among the cells of the one on these 1 to 8 nodes, none where there is no such cell.
    /// No node has the number 0.
    pub fn cell_on(&self, nodes: &[u32]) -> Option<u32>
        requires { IsPlace nodes.now }
        ensures { result ≡ position (λ (e : Element). same_set nodes.now e.nodes) (cell_elements self.now) }
    {
        match self.first_on(self.greatest, nodes) {
            Some(first) => Some(self.cells.before[first]),
            None => None,
        }
    }
}
