//! Laws of leaves that meet: what follows from the definitions alone.
//!
//! The laws stand in `proofs/`. There is no code.
