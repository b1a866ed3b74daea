//! Rounds whose interleaving is given.
//!
//! A [`ScriptFabric`] has a list of picks, each of which lets a rank do its next ask. So a run can be
//! told again step by step, and a test can choose how ranks meet.

mod fabric;
mod round;
mod walk;

pub use fabric::ScriptFabric;
