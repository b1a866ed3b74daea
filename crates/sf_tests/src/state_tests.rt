//! Tests of the crates on a mesh spread over ranks: layouts and fields, what ranks hold, and numbers.

#[cfg(test)]
mod layouts;
#[cfg(test)]
mod spreads;
#[cfg(test)]
mod triangles;
