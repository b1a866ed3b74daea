//! The first trace of a distributed mesh: where each rank has the points that it owns.

mod tracing;

pub use tracing::first_trace;
