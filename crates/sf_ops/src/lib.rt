//! Operations on star forests: what leaves ask of their roots, done as one round of a fabric.
//!
//! After `PetscSFBcastBegin`, `PetscSFReduceBegin` and `PetscSFFetchAndOpBegin` of PETSc.
#![tactic(auto)]

mod asking;
mod broadcast;
mod fetch;
mod reduction;
pub mod slots;
pub mod sums;

pub use broadcast::bcast;
pub use fetch::fetch_and_op;
pub use reduction::reduce;
