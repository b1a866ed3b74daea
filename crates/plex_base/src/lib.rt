//! Limits, keys, dimensions, and the one answer that any call may give: that memory ran out.
#![tactic(auto)]

mod data_field;
mod dim;
mod key;
mod laws;
mod limits;
mod no_memory;

pub use data_field::DataField;
pub use dim::Dim;
pub use key::PointKey;
pub use laws::{dimensions_are_ordered_by_number, keys_are_ordered_by_number, limits_are_these};
pub use limits::{
    MAX_CELLS, MAX_DATA_SECTIONS, MAX_DOFS, MAX_DOFS_LINES, MAX_ELEMENTS, MAX_FILE_BYTES,
    MAX_NAMES, MAX_NODES, MAX_OVERLAP, MAX_OVERLAP_CELLS, MAX_RANKS, MAX_STEPS,
};
pub use mesh_defs::Place;
pub use no_memory::NoMemory;
