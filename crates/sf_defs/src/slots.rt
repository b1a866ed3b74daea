//! Slots of star forests, after the multi-SF of PetscSF: as many at a root as it has leaves, so that
//! each leaf has one of its own.
//!
//! The definitions stand in `specs/`, over plain lists and numbers. There is no code.
