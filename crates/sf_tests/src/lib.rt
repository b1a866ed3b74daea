//! Fabrics for tests, and tests of the crates on forests and rounds.
#![tactic(auto)]

pub mod algebra_tests;
#[cfg(test)]
mod fetching;
#[cfg(test)]
mod forests;
#[cfg(test)]
mod legality;
pub mod meet_tests;
mod refusing;
#[cfg(test)]
mod rounds;
#[cfg(test)]
mod scripts;
pub mod state_tests;
#[cfg(test)]
mod texts;
pub mod threads_tests;

pub use refusing::{NoFabric, RefusingFabric};
