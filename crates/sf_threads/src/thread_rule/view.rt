//! What a table and its seats know.

use sf_defs::Ask;
use std::collections::LinkedList;

/// An ask that a rank has done, its place in the rank's list, and what it fetched.
pub struct Done {
    pub rank: u32,
    pub index: u32,
    pub ask: Ask,
    pub got: u64,
}

/// What a seat knows: some ranks one after another, and what they have done, in this order.
pub struct View {
    /// The first of the ranks.
    pub first: u32,
    /// The rank after the last one.
    pub end: u32,
    pub done: LinkedList<Done>,
}

/// What a table is made for: the first value of each word, and how many ranks there are.
#[derive(Debug, Drop)]
pub struct Key {
    pub words: Vec<u64>,
    pub ranks: u32,
}
