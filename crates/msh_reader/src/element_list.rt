//! The elements of a file.

ghost use Rattle.std.specs.Prelude.{◌≡◌, ◌+◌, ◌<◌, ◌≤◌, length, take, drop, nat_lt, is_some, Some};
ghost use Rattle.std.specs.List.{slice_get};
ghost use Rattle.input_defs.specs.Sections.{poly_of_type, corners_of_type};
ghost use Rattle.msh_reader.specs.Views.{element_views, AreLaidOut};

use std::marker::Model;

/// An element of a file: its number, its type, its physical tag, and where its nodes begin in the
/// list of all elements' nodes.
#[derive(Clone, Copy, Debug)]
pub struct FileElement {
    pub number: u32,
    pub kind: u32,
    pub physical: i32,
    pub start: usize,
}

/// The elements of a file.
#[derive(Debug, Drop)]
pub struct ElementList {
    elements: Vec<FileElement>,
    /// The nodes of the elements, one element after the other.
    corners: Vec<u32>,
}

impl Model for ElementList {
    ghost use Rattle.std.specs.Prelude.{List};
    ghost use Rattle.input_defs.specs.Content.{Element};

    ghost Value = { List Element };

    ghost use Rattle.msh_reader.specs.Views.{element_views, AreLaidOut};

    ghost view = { λ l. element_views l.elements.items l.corners.items };

    ghost invariant = { λ l. AreLaidOut l.elements.items l.corners.items };
}

/// An element as a mesh file lists it.
#[derive(Clone, Copy, Debug, PartialEq, Eq)]
pub struct ElementView<'a> {
    /// The number in the file.
    pub number: u32,
    /// The element type, as the Gmsh manual numbers them: 1 line, 2 triangle, 3 quadrangle,
    /// 4 tetrahedron, 5 hexahedron, 15 point.
    pub kind: u32,
    /// The tag of the physical group, 0 for none.
    pub physical: i32,
    /// The numbers of the nodes, in the manual's order.
    pub nodes: &'a [u32],
}

/// How many nodes the elements of a type have, by the Gmsh manual; none where it is no type that is
/// read.
pub fn corner_count(kind: u32) -> u32
    ensures count { result ≡ corners_of_type kind }
    ensures some { nat_lt 0 result ≡ is_some (poly_of_type kind) }
{
    match kind {
        1 => 2,
        2 => 3,
        3 => 4,
        4 => 4,
        5 => 8,
        15 => 1,
        _ => 0,
    }
}

/// The nodes of one element, among those of all elements.
fn nodes_at(corners: &[u32], start: usize, count: u32) -> &[u32]
    requires { start + count ≤ length corners.now }
    ensures { result.now ≡ take count (drop start corners.now) }
{
    &corners[start..start + count as usize]
}

impl ElementList {
    /// Elements whose nodes lie in a list, one element after the other.
    pub fn new(elements: Vec<FileElement>, corners: Vec<u32>) -> ElementList
        requires { AreLaidOut elements.items corners.items }
        ensures { result ≡ element_views elements.items corners.items }
    {
        ElementList { elements, corners }
    }

    /// How many elements there are.
    pub fn len(&self) -> usize
        ensures { result ≡ length self.now }
    {
        self.elements.len()
    }

    /// The element at place `i`, from 0.
    pub fn get(&self, i: usize) -> ElementView<'_>
        requires { i < length self.now }
        ensures { slice_get self.now i
            ≡ Some (record { number = result.number; kind = result.kind; physical = result.physical; nodes = result.nodes.now }) }
    {
        let element = &self.elements[i];
        ElementView {
            number: element.number,
            kind: element.kind,
            physical: element.physical,
            nodes: nodes_at(&self.corners, element.start, corner_count(element.kind)),
        }
    }
}
