//! The rows that data sections have for some vertices or cells: of each the last one.
//!
//! The rows of a mesh are gone over once, into a table for each section ([`tables_of`]). Each rank then
//! looks its own vertices and cells up ([`rows_of`]).

mod given;
mod tables;

pub use given::rows_of;
pub use tables::{RowTable, tables_of};
