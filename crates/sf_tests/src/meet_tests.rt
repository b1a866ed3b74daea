//! Tests of leaves that meet.

#[cfg(test)]
mod meeting;
