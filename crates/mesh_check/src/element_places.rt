//! Which elements of a mesh file stand at one place: those of one dimension on one set of nodes.
//!
//! [`ElementPlaces`] finds the first element at a place, and lists the elements that become cells.

mod cells;
mod element_type;
mod key;
mod places;
mod table;

pub use element_type::{dim_of_type, poly_of_type};
pub use places::ElementPlaces;
