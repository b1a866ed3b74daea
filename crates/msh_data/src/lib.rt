//! Reads the body of one data section of a mesh file: `NodeData` or `ElementData` of the MSH format
//! 2.2 of the Gmsh manual.
//!
//! The definition `section_of` of `input_defs` says what such a body says and what its first fault
//! is, and [`read_section`] gives exactly that.
#![tactic(auto)]

mod head;
mod known;
pub mod msh_body;
mod passing;
mod rows;
mod section;

pub use input_defs::DataFault;
pub use known::Numbers;
pub use plex_base::{DataField, Place};
pub use section::read_section;
