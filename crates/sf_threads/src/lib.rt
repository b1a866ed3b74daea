//! Rounds by threads: each rank does its asks in a thread of its own, on shared words.
//!
//! A [`ThreadFabric`] answers legal rounds, however its threads are interleaved. Each ask is one atomic
//! step on a word of a table, and no thread waits for another.
#![tactic(auto)]

mod asking;
mod fabric;
mod gate;
mod play;
mod ranks;
mod round;
pub mod thread_rule;

pub use fabric::ThreadFabric;
pub use gate::{Gate, NoGate};
