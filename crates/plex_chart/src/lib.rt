//! The oriented Hasse diagram of the cells that one rank has: a chart of numbered points, with the
//! cone of each point, after DMPlex of PETSc.
//!
//! Points are numbered from 0, stratum by stratum: cells, vertices, faces of a solid mesh, edges.
//! A [`PlexBuilder`] takes them in that order, and gives a [`Plex`], which only answers questions.
#![tactic(auto)]

mod builder;
mod cones;
mod plex;
mod strata;

pub use builder::PlexBuilder;
pub use mesh_defs::ConeEntry;
pub use plex::Plex;
