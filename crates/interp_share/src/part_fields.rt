//! The fields of the points that each rank sees of its own cells, once the ranks know which points they
//! share.
//!
//! [`all_fields`] takes the words of data sections from the rows that a rank is given, and those of `dofs`
//! from the weights of its points. Each rank sums up its own cells, and the sums meet over the forest of
//! shared points: a round that runs only where there are `dofs`.

mod fields;
mod locals;
mod one_rank;
mod weights;

pub use fields::all_fields;
pub use locals::RankLocals;
