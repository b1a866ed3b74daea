//! Laws of the text of a step: over a plain distribution it is the text of the headline.
//!
//! The laws stand in `proofs/`. There is no code.
