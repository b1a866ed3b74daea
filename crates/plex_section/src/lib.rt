//! How many words each point of a chart has, and the words themselves, after PetscSection of PETSc.
//!
//! A [`Section`] lays out the words of all points one after another, and a [`Field`] is words that
//! are laid out so.
#![tactic(auto)]

mod field;
mod section;

pub use field::Field;
pub use section::Section;
