//! Rounds of atomic steps on shared words, and what runs them.
//!
//! A [`Fabric`] takes the words of a round and what each rank asks of them, and answers a [`Round`]:
//! what each ask fetched, the words afterwards, and an order of the asks on each word that explains
//! both. After `PetscSFFetchAndOpBegin` of PETSc.
#![tactic(auto)]

mod fabric;
mod flat;
pub mod flat_lists;
mod lists;
pub mod orders;
pub mod replays;
mod round;
pub mod script;

pub use fabric::Fabric;
pub use flat::FlatLists;
pub use round::Round;
pub use sf_defs::{Ask, Op, Tag, Turn};
