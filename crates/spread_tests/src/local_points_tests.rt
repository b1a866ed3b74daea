//! Tests of `local_points`: two cells that share a face or an edge, and more cells than one thread
//! lists.

#[cfg(test)]
mod many;
#[cfg(test)]
mod pairs;
