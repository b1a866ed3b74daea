//! Plain lists of numbers, and lemmas on lists that several crates use.
//!
//! The definitions stand in `specs/`, the lemmas in `proofs/`. There is no code.
#![tactic(auto)]
