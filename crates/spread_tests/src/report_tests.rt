//! Tests of the lines of refusals.

#[cfg(test)]
mod refusals;
