//! The faces and edges of a list of cells, as these cells alone see them: the first half of the
//! interpolation of DMPlex.
//!
//! [`PointFinder::of`] finds them from each cell's number, polytope and corners. A face or an edge
//! is there once, as the first cell of the list that has it sees it, and is named by its place in
//! the order of first sight, which is that of a chart. One rank with all cells of a mesh and each
//! rank with its own cells use it as it is.
#![tactic(auto)]

mod cell_list;
mod edges;
mod entries;
mod faces;
mod finder;
mod laws;
mod points;
mod seen_edges;
mod seen_faces;
mod sets;

pub use cell_list::CellList;
pub use finder::PointFinder;
pub use laws::{edges_are_a_stratum, entries_are_places, faces_are_a_stratum};
pub use points::LocalPoints;
