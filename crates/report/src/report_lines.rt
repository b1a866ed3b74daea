//! The lines of a text: parts that are appended to the bytes of a line, whole lines, and one `write` of each.
//!
//! A line is made in a `Vec<u8>` that its caller uses again, so that a line takes memory only where it is longer than all
//! before it. Each function that appends says which bytes, by the words of the definitions of the text.

mod numbers;
mod points;
mod steps;
mod windows;
mod words;
mod writing;

pub use numbers::{append_also, append_field, append_fixed, append_number};
pub use points::{append_at, append_cone, append_entry, append_label, append_tag};
pub use steps::{
    RankCounts, Sums, Totals, append_ghost_line, append_rank_line, append_step_line,
    append_sum_line, append_total_line, append_trace_line,
};
pub use windows::append_window_line;
pub use words::{append_words, signed_of};
pub use writing::write_line;
