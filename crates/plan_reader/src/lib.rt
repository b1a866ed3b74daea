//! Reads plans: how the cells of a mesh are spread over ranks, step by step, and what is printed.
//!
//! The definition `plan_of` of `input_defs` says which bytes are a plan and what it says, and
//! [`read_plan`] gives exactly that, or its first fault.
#![tactic(auto)]

mod draft;
mod fits;
mod forms;
mod moves;
mod numbers;
mod plan;
mod reading;
mod tokens;

pub use input_defs::{PlanFault, Show, Step};
pub use plan::Plan;
pub use reading::read_plan;
