//! A mesh spread over ranks: what each rank holds and owns, the rounds in which ranks learn keys and
//! draw numbers, and the values that the calls of a distribution stand for.
//!
//! The definitions stand in `specs/`, over plain lists and numbers, after the chapters on DMPlex and
//! PetscSF of the PETSc/TAO Users Manual. There is no code.
#![tactic(auto)]
