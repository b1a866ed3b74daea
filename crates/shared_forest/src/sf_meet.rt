//! Leaves of a star forest that meet: those on the same root with the same key agree on the least of
//! their ids.

mod least;
mod meeting;
mod slot_roots;
mod words;

pub use meeting::meet;
