//! The vertices of a mesh file: the nodes that some element of the mesh's dimension has.

mod first_places;
mod flags;
mod number_table;
mod used_nodes;
mod vertices;

pub use number_table::NumberTable;
pub use vertices::Vertices;
