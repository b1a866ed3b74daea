//! The head and the end of the text that a run prints, and the lines of refusals.
//!
//! Each line with its LF is one `write`.
#![tactic(auto)]

mod head;
mod laws;
mod line;
mod mesh_faults;
mod plan_faults;
mod refusal;
pub mod report_lines;
mod writing;

pub use cause_defs::ReportFault;
pub use head::write_head;
pub use laws::{labels_have_the_values_of_marks, numbers_on_one_rank_are_places};
pub use refusal::{Refusal, write_refusal};
pub use writing::write_end;
