//! The cells and vertices of a mesh, given to ranks by the first part of a plan.
//!
//! [`seed`] finds what each rank holds, lets the vertices find their owners in one round, and gives each rank
//! the marks and data on its points. No points between cells and vertices are made.
#![tactic(auto)]

pub mod part_ranks;
mod parts;
pub mod rank_cells;
pub mod rank_marks;
pub mod section_rows;
mod sections;
mod seeding;
pub mod vertex_owners;

pub use dist_state::scatter_state::{RankPart, Scatter};
pub use seeding::seed;
