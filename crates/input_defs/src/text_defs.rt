//! What is printed: the lines of the text of a diagram and of refusals, over plain lists of bytes.
//!
//! The definitions stand in `specs/`. There is no code.
