//! The twist that ranks agree on: the least of their own.

mod twist;

pub use twist::least_twist;
