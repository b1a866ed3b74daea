//! What is of one diagram: supports, closures and stars, labels, sections and fields.
//!
//! The definitions stand in `specs/`, over plain lists and numbers, after the chapter on DMPlex of the
//! PETSc/TAO Users Manual. There is no code.
#![tactic(auto)]
