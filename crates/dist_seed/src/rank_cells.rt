//! The cells that an assignment gives to a rank, and their vertices.
//!
//! Each rank goes over the whole assignment and over its own cells; nothing is searched.

mod cells;
mod own;
mod vertices;

pub use own::{CellLists, RankCells, rank_cells};
