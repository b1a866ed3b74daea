//! Which elements are on points.

ghost use Rattle.std.specs.Prelude.{◌≡◌, ◌<◌, ◌&&◌, ℕ, map, length, get_or, false, not, nat_eq, IfOk};
ghost use Rattle.plex_base.specs.Dim.{dim_number};
ghost use Rattle.input_defs.specs.Meshes.{poly, vertex_nodes, cell_elements, cells_of, point_of_element, is_point_of, loose_elements};
ghost use Rattle.input_laws.specs.place_laws.Places.{element_at, firsts_of};
ghost use Rattle.mesh_check.specs.element_points.Parts.{parts_of, some_leads_to};
ghost use Rattle.mesh_check.specs.element_points.Flags.{AreSet, AreDims, has_dim};
ghost use Rattle.mesh_check.specs.element_points.Marks.{AreMarks};

use crate::element_places::{ElementPlaces, dim_of_type, poly_of_type};
use crate::element_points::marks::lower_nodes;
use crate::element_points::parts::{set_edges, set_faces, set_vertices};
use msh_reader::MshText;
use plex_base::{Dim, NoMemory};
use std::alloc::Global;

/// Which dimensions below 3 the elements of a file have.
#[derive(Clone, Copy)]
struct Dims {
    points: bool,
    lines: bool,
    faces: bool,
}

fn has_dim(text: &MshText, dim: Dim) -> bool
    ensures { result ≡ has_dim text.now.elements (dim_number dim) }
{
    for i in 0..text.elements() {
        if dim_of_type(text.element(i).kind).number() == dim.number() {
            return true;
        }
    }
    false
}

impl Dims {
    fn of(text: &MshText) -> Dims
        ensures { AreDims text.now.elements result.points result.lines result.faces }
    {
        Dims {
            points: has_dim(text, Dim::Zero),
            lines: has_dim(text, Dim::One),
            faces: has_dim(text, Dim::Two),
        }
    }
}

/// Flags the elements on the parts of the element at place `i`.
fn set_parts(found: &mut [bool], places: &ElementPlaces<'_>, lower: &[bool], dims: Dims, i: usize)
    requires each { length found.old ≡ length places.now.elements }
    requires marks { AreMarks places.now lower.now }
    requires dims { AreDims places.now.elements dims.points dims.lines dims.faces }
    requires element { i < length places.now.elements }
    ensures { AreSet places.now.elements (parts_of (poly (element_at places.now.elements i)) (element_at places.now.elements i).nodes) found.old found.new }
{
    let text = places.text();
    // Elements have as many nodes as corners, and no node has the number 0: the proof takes this
    // from the call.
    let _nodes = text.nodes();
    let element = text.element(i);
    let poly = poly_of_type(element.kind);
    set_vertices(found, places, lower, dims.points, element.nodes);
    found[places.first(i)] = true;
    set_faces(found, places, lower, dims.faces, poly, element.nodes);
    set_edges(found, places, lower, dims.lines, poly, element.nodes);
}

/// A flag for each element of a file: whether it is the first one on some part of a cell.
fn found_on_cells(alloc: Global, places: &ElementPlaces<'_>) -> Result<Vec<bool>, NoMemory>
    ensures each { IfOk result (λ found. length found.items ≡ length places.now.elements) }
    ensures found { IfOk result (λ found. (k : ℕ) → k < length places.now.elements → get_or found.items k false ≡ some_leads_to places.now.elements (cell_elements places.now) k) }
{
    let text = places.text();
    let dims = Dims::of(text);
    let lower = lower_nodes(alloc, places)?;
    let mut found = vec![in alloc; false; text.elements()]?;
    let cells = places.cells();
    for cell in cells {
        set_parts(&mut found, places, &lower, dims, *cell as usize);
    }
    Ok(found)
}

/// For each element of a file, in file order, whether it is on a point of the mesh: whether a cell
/// contains a point of its dimension on its nodes.
///
/// The elements that become cells are, and so is whatever stands where a vertex, an edge or a face
/// of a cell does. No table of all faces and edges is made.
pub fn on_points(alloc: Global, places: &ElementPlaces<'_>) -> Result<Vec<bool>, NoMemory>
    ensures { IfOk result (λ on. on.items ≡ map (λ e. is_point_of (cells_of places.now) (point_of_element (vertex_nodes places.now) e)) places.now.elements) }
{
    let found = found_on_cells(alloc, places)?;
    // The nodes of elements are known: the proof takes this from the call.
    let _nodes = places.text().nodes();
    let count = places.text().elements();
    let mut on = Vec::with_capacity(alloc, count)?;
    for i in 0..count {
        on.push(found[places.first(i)])?;
    }
    Ok(on)
}

/// Whether the element at place `i` is loose: not merged, and on no point.
fn is_loose(places: &ElementPlaces<'_>, on: &[bool], i: usize) -> bool
    requires each { length on.now ≡ length places.now.elements }
    requires element { i < length places.now.elements }
    ensures { result ≡ (not (get_or on.now i false) && nat_eq (get_or (firsts_of places.now.elements) i 0) i) }
{
    !on[i] && places.first(i) == i
}

/// How many elements are loose: not merged, and on no point. Condition: `on` is what [`on_points`]
/// answers.
pub fn count_loose(places: &ElementPlaces<'_>, on: &[bool]) -> u32
    requires { on.now ≡ map (λ e. is_point_of (cells_of places.now) (point_of_element (vertex_nodes places.now) e)) places.now.elements }
    ensures { result ≡ length (loose_elements places.now) }
{
    // There are at most 1,000,000 elements: the proof takes this from the call.
    let _nodes = places.text().nodes();
    let mut loose = 0;
    for i in 0..on.len() {
        if is_loose(places, on, i) {
            loose += 1;
        }
    }
    loose
}
