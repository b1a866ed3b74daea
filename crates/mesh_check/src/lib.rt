//! From what a mesh file says to the accepted mesh, or to the reason why it has none.
//!
//! The definition `accepted` of `input_defs` says what the mesh is and what the first cause is, and
//! [`accept`] gives exactly that.
#![tactic(auto)]

pub mod accepted_laws;
mod cells;
pub mod data_rows;
pub mod element_places;
pub mod element_points;
mod fields;
mod marks;
pub mod mesh_vertices;
mod names;
mod positions;
mod top;
mod verdict;
mod vertices;

pub use input_defs::MeshFault;
pub use plex_mesh::Mesh;
pub use top::accept;
