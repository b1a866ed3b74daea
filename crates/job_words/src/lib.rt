//! What the words of a call ask for: a plan file, a mesh file or a generated mesh, and a summary.
//!
//! The definition `request` of `input_defs` says which words are accepted, and what they ask for.
//! [`read_words`] gives exactly that, by one simple command of `clap`.
#![tactic(auto)]

mod asked;
mod command;
mod made;
mod reading;

pub use asked::{Request, Source};
pub use reading::read_words;
