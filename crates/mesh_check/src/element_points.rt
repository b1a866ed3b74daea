//! Which elements of a mesh file are on points of its mesh.

mod flags;
mod marks;
mod parts;
mod points;

pub use points::{count_loose, on_points};
