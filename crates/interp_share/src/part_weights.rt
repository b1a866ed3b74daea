//! The weights that a rank's cells give to the points that it sees of them.
//!
//! [`part_weights`] goes over the rank's cells once. Each cell adds its number in the whole mesh, counted
//! from 1, to itself, its vertices, its faces where it is a solid, and its edges.

mod places;
mod weights;

pub use weights::part_weights;
