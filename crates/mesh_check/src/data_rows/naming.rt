//! What the rows of a data section name.

ghost use Rattle.std.specs.Prelude.{◌≡◌, IfOk};
ghost use Rattle.mesh_defs.specs.declared.Place.TheVariants as place;
ghost use Rattle.input_defs.specs.Meshes.{vertex_nodes, place_named};
ghost use Rattle.input_defs.specs.RightContent.{element_numbers};
ghost use Rattle.mesh_check.specs.data_rows.Naming.{KnowsElements, is_on_elements, has_element_data};

use crate::element_places::ElementPlaces;
use crate::mesh_vertices::{NumberTable, Vertices};
use msh_reader::MshText;
use plex_base::{NoMemory, Place};
use std::alloc::Global;

fn is_on_elements(on: Place) -> bool
    ensures { result ≡ is_on_elements on }
{
    match on {
        Place::Node => false,
        Place::Element => true,
    }
}

/// Whether a data section of a file is on elements, so that their numbers have to be known.
pub fn needs_element_numbers(text: &MshText) -> bool
    ensures { result ≡ has_element_data text.now.fields }
{
    for i in 0..text.fields() {
        let (on, _) = text.field(i);
        if is_on_elements(on) {
            return true;
        }
    }
    false
}

/// The numbers of the elements of a file, in file order.
pub fn element_numbers(alloc: Global, text: &MshText) -> Result<NumberTable, NoMemory>
    ensures { IfOk result (λ numbers. numbers ≡ element_numbers text.now) }
{
    // There are at most 1,000,000 elements: the proof takes this from the call.
    let _nodes = text.nodes();
    let mut numbers = Vec::with_capacity(alloc, text.elements())?;
    for i in 0..text.elements() {
        numbers.push(text.element(i).number)?;
    }
    NumberTable::of(alloc, numbers)
}

/// The place among the cells of the one on the nodes of the first element of this number.
fn cell_named(places: &ElementPlaces<'_>, numbers: &NumberTable, number: u32) -> Option<u32>
    requires { numbers.now ≡ element_numbers places.now }
    ensures { result ≡ place_named places.now place.Element number }
{
    let text = places.text();
    // No node of an element has the number 0: the proof takes this from the call.
    let _nodes = text.nodes();
    match numbers.place(number) {
        Some(first) => places.cell_on(text.element(first as usize).nodes),
        None => None,
    }
}

/// The vertex or the cell that a number names, or none.
pub(crate) fn place_named(
    places: &ElementPlaces<'_>,
    vertices: &Vertices,
    numbers: &NumberTable,
    on: Place,
    number: u32,
) -> Option<u32>
    requires vertices { vertices.now ≡ vertex_nodes places.now }
    requires numbers { KnowsElements on numbers.now places.now }
    ensures { result ≡ place_named places.now on number }
{
    match on {
        Place::Node => vertices.position(number),
        Place::Element => cell_named(places, numbers, number),
    }
}
