//! Tests of the call that counts cells at vertices.

#[cfg(test)]
mod counted;
