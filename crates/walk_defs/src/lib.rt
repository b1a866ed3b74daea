//! Closures and stars by cones alone: what a walk over a diagram lists, with orientations as integers
//! and no list of vertices.
//!
//! The definitions stand in `specs/`, over plain lists and numbers, after the transitive closures of
//! DMPlex. There is no code.
#![tactic(auto)]

pub mod step_defs;
