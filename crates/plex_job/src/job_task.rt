//! From the words of a command and the files of a shelf to what is to be done, or to the refusal that
//! stands.
//!
//! [`read_task`] takes the files that the words ask for and reads them. What it answers is what
//! `input_defs` says that words, plan bytes and mesh bytes ask for, but for a twist of the mesh.

mod files;
mod reading;
mod stop;
mod task;

pub use reading::read_task;
pub use stop::Stop;
pub use task::Task;
