//! The rule of a table of words on which ranks do their asks, each in a thread of its own.
//!
//! A seat of the table knows some ranks and what they have done so far. Whatever threads do, the asks that were done
//! stand in one list, which replays from the first words to the words as they stand, and each rank's own stand in
//! it as its seat knows them. No value of these types is made but keys and steps.

mod rule;
mod view;

pub use rule::{Ands, Halves, Joined, Loads, Maxes, Mins, Ors, Replaces, RoundRule, Sums};
pub use view::{Done, Key, View};
