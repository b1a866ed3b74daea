//! The elements that are not merged, and those that become cells.

ghost use Rattle.std.specs.Prelude.{◌≡◌, ◌<◌, ℕ, ◌&&◌, length, map, max, nat_eq, slice_index, IfOk};
ghost use Rattle.std.specs.List.{AllByRecursion};
ghost use Rattle.plex_base.specs.Dim.{dim_number};
ghost use Rattle.input_defs.specs.Meshes.{kept, greatest_dim, cell_elements};
ghost use Rattle.input_laws.specs.place_laws.Places.{firsts_of, element_at, cells_before};

use crate::element_places::element_type::dim_of_type;
use msh_reader::MshText;
use plex_base::{Dim, NoMemory};
use std::alloc::Global;

/// The places in the file of the elements that become cells, and for each element of the file how
/// many of those before it do.
#[derive(Drop)]
pub(crate) struct CellList {
    pub(crate) places: Vec<u32>,
    pub(crate) before: Vec<u32>,
}

fn greater(a: Dim, b: Dim) -> Dim
    ensures { dim_number result ≡ max (dim_number a) (dim_number b) }
{
    if a.number() < b.number() { b } else { a }
}

/// The greatest dimension of an element, or 0.
pub(crate) fn greatest_dim(text: &MshText) -> Dim
    ensures { dim_number result ≡ greatest_dim text.now }
{
    let mut greatest = Dim::Zero;
    for i in 0..text.elements() {
        greatest = greater(greatest, dim_of_type(text.element(i).kind));
    }
    greatest
}

/// How many elements of a file are not merged: each is the first one where it stands.
pub(crate) fn count_kept(text: &MshText, firsts: &[u32]) -> u32
    requires { firsts.now ≡ firsts_of text.now.elements }
    ensures { result ≡ length (kept text.now) }
{
    // There are at most 1,000,000 elements: the proof takes this from the call.
    let _nodes = text.nodes();
    let mut kept = 0;
    for (i, first) in firsts.iter().enumerate() {
        if *first as usize == i {
            kept += 1;
        }
    }
    kept
}

/// Whether the element at place `i` becomes a cell: it is the first one where it stands, and of the
/// greatest dimension.
fn becomes_cell(i: usize, first: u32, dim: Dim, greatest: Dim) -> bool
    ensures { result ≡ (nat_eq first i && nat_eq (dim_number dim) (dim_number greatest)) }
{
    first as usize == i && dim.number() == greatest.number()
}

/// Lists the elements that become cells: those of the greatest dimension that are not merged.
pub(crate) fn list_cells(
    alloc: Global,
    text: &MshText,
    firsts: &[u32],
    greatest: Dim,
) -> Result<CellList, NoMemory>
    requires firsts { firsts.now ≡ firsts_of text.now.elements }
    requires greatest { dim_number greatest ≡ greatest_dim text.now }
    ensures cells { IfOk result (λ list. map (element_at text.now.elements) list.places.items ≡ cell_elements text.now) }
    ensures in_range { IfOk result (λ list. AllByRecursion (λ i. i < length text.now.elements) list.places.items) }
    ensures before { IfOk result (λ list. (i : ℕ) → i < length text.now.elements → slice_index list.before.items i ≡ cells_before text.now i) }
    ensures each { IfOk result (λ list. length list.before.items ≡ length text.now.elements) }
{
    // There are at most 1,000,000 elements: the proof takes this from the call.
    let _nodes = text.nodes();
    let mut places = Vec::new(alloc);
    let mut before = Vec::with_capacity(alloc, text.elements())?;
    for i in 0..text.elements() {
        before.push(places.len() as u32)?;
        let dim = dim_of_type(text.element(i).kind);
        if becomes_cell(i, firsts[i], dim, greatest) {
            places.push(i as u32)?;
        }
    }
    Ok(CellList { places, before })
}
