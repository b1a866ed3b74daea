//! Which points the ranks of a mesh share, found by meeting.
//!
//! Each rank has cells of its own, vertices, and faces and edges as sets of vertices. A face or an edge
//! is shared where another rank has the same set, which no rank can see by itself: so the ranks bring
//! the sets whose vertices all have copies to the owner of the set's first vertex, where equal sets
//! meet. [`shared_forest`] answers the star forest of all shared points.
#![tactic(auto)]

mod candidates;
mod charts;
mod copied;
mod forest;
mod joining;
mod meeting;
pub mod sf_meet;
mod vertices;

pub use charts::{NO_VERTEX, RankCharts};
pub use forest::shared_forest;
