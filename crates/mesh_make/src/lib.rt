//! Generated meshes: grids of squares and cubes, whole or cut into triangles and tetrahedra.
#![tactic(auto)]

mod cells;
mod cuts;
mod generated;
mod grid;

pub use generated::{make, most};
pub use input_defs::Kind;
