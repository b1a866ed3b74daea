//! Tests of the crates on which the others stand: keys and dimensions, operations on words, the tables and orientations
//! of polytopes, and charts with cones.

#[cfg(test)]
mod chart;
#[cfg(test)]
mod keys;
#[cfg(test)]
mod operations;
#[cfg(test)]
mod orientation;
#[cfg(test)]
mod tables;
