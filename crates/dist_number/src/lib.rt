//! Global numbers of the points of a distributed mesh.
//!
//! [`number`] runs the round in which each rank draws the base of its numbers, and [`spread`] gives
//! each point that a rank holds its number, as `DMPlexCreatePointNumbering` of PETSc does.
#![tactic(auto)]

mod bases;
mod counts;
pub mod dist_trace;
mod drawing;
mod numbers;
mod places;
mod spreading;

pub use bases::Bases;
pub use drawing::number;
pub use numbers::Numbers;
pub use spreading::spread;
