//! Sums over the copies of points that ranks share, by a reduction and a broadcast over their forest.

mod sums;

pub use sums::sum_copies;
