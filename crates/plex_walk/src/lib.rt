//! Supports, closures and stars of a diagram: what a point is part of and what it is made of, after
//! DMPlex of PETSc.
//!
//! A closure goes down the cones, and its orientations are put together as integers. A star goes up
//! the supports, which [`supports`] finds once for the whole diagram.
#![tactic(auto)]

mod closures;
mod entries;
mod fill;
mod stars;
mod support_lists;

pub use closures::{closure, closure_into};
pub use stars::star;
pub use support_lists::{SupportLists, supports};
