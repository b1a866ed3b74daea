//! Whether rounds are legal.
//!
//! A round may come from anywhere, as its parts. [`replays`] answers whether it is one that a fabric
//! may answer: its words and asks meet the conditions, and each word's order has each ask on it once,
//! explains what was fetched, and is the printed one.

mod conditions;
mod entry;
mod round;
mod walk;

pub use round::replays;
