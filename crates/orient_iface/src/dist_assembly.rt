//! The distributed mesh once every rank has drawn its diagram.
//!
//! [`own_twists`] tells for each rank whether one of its cells sees a face under no orientation. Where
//! none does, [`assemble`] puts what each rank has on its points in the order of its chart by keys, and
//! makes the [`Dist`](dist_state::Dist).

mod local;
mod moves;
mod twists;
mod whole;
mod words;

pub use twists::own_twists;
pub use whole::assemble;
