//! The points of a mesh over ranks, found by each rank among its own cells, and which of these are the
//! same, found by meeting: the first half of `DMPlexInterpolate` on a distributed `DMPlex`.
#![tactic(auto)]

mod joining;
mod listing;
mod locals;
pub mod own_field_laws;
pub mod part_fields;
pub mod part_labels;
pub mod part_weights;
pub mod point_meeting;
pub mod rank_fields;
pub mod rank_points;
mod sharing;

pub use dist_state::shared_state::{OwnPoints, Scatter, Shared};
pub use sharing::share;
