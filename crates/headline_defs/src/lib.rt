//! The text of a mesh on its ranks, step by step, and what a call promises of it.
//!
//! The definitions stand in `specs/`, over plain lists and numbers, above those of input and of
//! ranks. There is no code.
#![tactic(auto)]
