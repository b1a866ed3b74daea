//! The algebra of star forests: composition, inversion and restriction, after `PetscSFCompose`,
//! `PetscSFCreateInverseSF`, `PetscSFCreateEmbeddedRootSF` and `PetscSFCreateEmbeddedLeafSF` of PETSc.
//!
//! Each makes a new forest out of others, without communication, and searches along no list.
#![tactic(auto)]

mod composing;
mod embedding;
mod fault;
mod found;
mod inverting;
mod made;
mod shared;

pub use composing::compose;
pub use embedding::{embed_leaves, embed_roots};
pub use fault::InvertFault;
pub use inverting::invert;
