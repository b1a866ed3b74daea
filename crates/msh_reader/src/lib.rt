//! Reads mesh files in the MSH format 2.2 of the Gmsh manual, as text.
//!
//! The definition `content` of `input_defs` says what a file says and what its first fault is, and
//! [`read_msh`] gives exactly that.
#![tactic(auto)]

mod element_list;
mod elements;
mod format;
mod headers;
mod names;
mod nodes;
mod number_set;
mod numbers;
mod parts;
mod reading;
mod text;
mod trouble;

pub use element_list::ElementView;
pub use input_defs::{MshFault, What};
pub use msh_data::{DataField, Place};
pub use reading::read_msh;
pub use text::MshText;
