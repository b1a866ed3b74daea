//! What a rank has on its points, after it puts them in another order: labels, fields and the forest of shared points.
//!
//! `moves` tell for each place to which place goes the point that stands there.

mod field;
mod forest;
mod label;

pub use field::{moved_field, sources_of};
pub use forest::moved_forest;
pub use label::moved_label;
