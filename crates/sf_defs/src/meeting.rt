//! Leaves of a star forest that meet: those on the same root with the same key.
//!
//! The definitions stand in `specs/`, over plain lists and numbers. There is no code.
