//! Laws of the marks of a mesh: a cell is found by the set of its vertices, and the point of each mark stands where the
//! definition of its stratum says.
//!
//! The definitions stand in `specs/`, the lemmas in `proofs/`. There is no code.
