//! The accepted mesh as plain lists: vertices with their coordinates, cells with their vertices, marks
//! of labels, data sections and names, and counts of what the file had beside the mesh.
//!
//! A [`MeshBuilder`] takes them one after another, and gives a [`Mesh`], which only answers
//! questions. Every `Mesh` is a right one (`IsRightMesh` of `mesh_defs`).
#![tactic(auto)]

mod builder;
mod cells;
mod lists;
mod marks;
mod mesh;
mod span;

pub use builder::MeshBuilder;
pub use mesh::Mesh;
pub use mesh_defs::Poly;
pub use plex_base::{DataField, Place};
