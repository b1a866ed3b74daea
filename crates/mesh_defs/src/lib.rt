//! What a mesh is, and the oriented diagram that its cells' vertex lists define.
//!
//! The definitions stand in `specs/`, over plain lists and numbers, after the chapter on DMPlex of
//! the PETSc/TAO Users Manual. Here are the types that they share with the code above, which the
//! crates that use them hand on.
#![tactic(auto)]

/// The polytopes of cells, faces, edges and vertices.
#[derive(Clone, Copy, Debug, PartialEq, Eq, Hash)]
pub enum Poly {
    Vertex,
    Segment,
    Triangle,
    /// A quadrilateral, its corners in cyclic order.
    Quad,
    Tet,
    /// A hexahedron: the bottom 0, 1, 2, 3 in cyclic order, and 4, 5, 6, 7 above them.
    Hex,
}

/// What the values of a data section belong to.
#[derive(Clone, Copy, Debug, PartialEq, Eq, Hash)]
pub enum Place {
    Node,
    Element,
}

/// An arrow of the diagram: a point that is covered, by its local number, and the orientation
/// under which its own arrangement is the facet that is seen.
#[derive(Clone, Copy, Debug, Default, PartialEq, Eq, Hash)]
pub struct ConeEntry {
    pub point: u32,
    pub o: i8,
}
