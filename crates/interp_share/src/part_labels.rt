//! The labels of the points that a rank sees of its own cells, from the marks that it was given: `DMLabel` of
//! DMPlex on one rank, numbered as the rank's own chart is.

mod cells;
mod labels;
mod places;

pub use labels::part_labels;
