//! The forest of the points that the ranks of a mesh share, from what each rank is given and sees.
//!
//! [`mesh_forest`] answers it, after the meeting of `shared_forest`.

mod charts;
mod meeting;

pub use meeting::mesh_forest;
