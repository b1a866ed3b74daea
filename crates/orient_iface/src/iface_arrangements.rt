//! How the cell of the key sees each face and edge of each rank, told to every rank that has it.
//!
//! A rank that has the cell of a point's key sees the point under that key, so it knows the order in which
//! that cell has the point's vertices. It offers this order, as a number, and all others that have the point
//! offer 0; the greatest offer goes to all copies of the point. After the exchange of
//! `DMPlexOrientInterface`.

mod greatest;
mod offers;
mod ordered;
mod orders;
mod telling;

pub use telling::arrangements;
