//! The oriented cones of what one rank holds, once its points stand by key: the diagram of the rank's cells, or its own twist.
#![tactic(auto)]

pub mod arrangement_laws;
mod assembly;
mod cones;
mod drawn;
mod faces;
pub mod held_points;
pub mod rank_drawings;
mod seen;
mod sides;
mod stop;
mod whole;

pub use drawn::Drawn;
pub use whole::rank_plex;
