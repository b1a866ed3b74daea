//! The marks that a rank is given: those on points that some of its cells contains.
//!
//! A mark on a vertex is looked up in a table, one on a cell by the set of its vertices, and one on a face
//! or an edge among those that the rank's cells see. Nothing of this is made where there are no marks.

mod cell_sets;
mod marks;
mod own_points;

pub use marks::{RankMarks, rank_marks};
