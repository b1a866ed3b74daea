//! The data sections of a mesh file on its mesh: rows of vertices and cells.

mod naming;
mod rows;

pub use naming::{element_numbers, needs_element_numbers};
pub use rows::field_on_mesh;
