//! Tests of what ranks are given of a mesh, and of what they share: cells and vertices with owners, marks
//! and rows; points as sets of vertices, and the forest of shared points. The meshes and the way to what
//! ranks share of them serve tests of later steps too.
#![tactic(auto)]

pub mod caller_tests;
pub mod local_points_tests;
mod meshes;
pub mod orient_tests;
pub mod report_tests;
#[cfg(test)]
mod seeds;
#[cfg(test)]
mod shares;
mod spreads;
#[cfg(test)]
mod squares;
pub mod walk_tests;

pub use meshes::{THREE_TRIANGLES, TWO_CUBES};
pub use spreads::{shared_of, shared_over};
