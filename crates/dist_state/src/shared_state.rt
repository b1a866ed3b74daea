//! What ranks have of a mesh once they have met: the points that each sees of its own cells, and which of
//! these are the same.
//!
//! A [`Shared`] is made of the [`Scatter`] that the ranks were given, what each rank knows of its points
//! ([`OwnPoints`]) and the forest of shared points. It only answers questions, none of which takes memory
//! or searches along a list.

mod own_points;
mod shared;

pub use crate::scatter_state::Scatter;
pub use own_points::OwnPoints;
pub use shared::Shared;
