//! Star forests, after PetscSF: leaves on ranks, each of which names one root on a rank.
//!
//! A [`Forest`] is made once, from the number of roots and the leaves of each rank, and then only
//! answers questions. None of them takes memory or searches along a list.
#![tactic(auto)]

mod degrees;
mod fault;
mod forest;
mod own_leaves;

pub use fault::ForestFault;
pub use forest::Forest;
pub use sf_defs::Leaf;
