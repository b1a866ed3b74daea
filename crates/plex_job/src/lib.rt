//! From the words of a command to the text that it prints: the top call.
//!
//! [`job`] takes the files that the words name, runs the rounds of their plan on a fabric and writes
//! the mesh as it is spread over ranks, step by step. [`replay`] does the same with rounds whose
//! interleaving the first word gives.
#![tactic(auto)]

mod distributing;
mod ending;
pub mod job_task;
mod picked;
mod picks;
mod running;
mod spreading;
mod steps;
mod top;
pub mod value_words;

pub use input_defs::Status;
pub use top::{job, replay};
