//! Work on what each rank has, by threads.
#![tactic(auto)]

mod ranks;

pub use ranks::{RankWork, each_rank};
