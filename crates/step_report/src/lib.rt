//! The text of a step, of what the ranks hold.
//!
//! A line is made in a vector that is used again, and each line with its LF is one `write`. No mesh is looked at, and no
//! list is searched for a point.
#![tactic(auto)]

mod counts;
mod desk;
mod ghosts;
mod pages;
mod pen;
mod point_lines;
mod rounds;
mod step;
mod sums;
mod tails;
mod totals;

pub use cause_defs::ReportFault;
pub use step::write_step;
