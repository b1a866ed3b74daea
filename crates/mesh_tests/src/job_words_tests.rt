//! Tests of the words of a call: lists that are accepted, and lists that are refused.

#[cfg(test)]
mod words;
