//! The printed orders of a round.
//!
//! Whatever ran the asks of a round, the order in which it prints those on a word is one: a function of
//! the first values, the asks and what they fetched. [`printed_orders`] finds it for all words by one
//! sort.

mod kinds;
mod orders;
mod place;

pub use orders::printed_orders;
