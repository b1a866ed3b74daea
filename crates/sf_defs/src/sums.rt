//! Words that are added up over the copies of a point.
//!
//! The definitions stand in `specs/`, over plain lists and numbers. There is no code.
