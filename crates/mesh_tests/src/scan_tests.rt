//! Tests of `scan`: values taken from outside the definitions, and a call of each public function.

#[cfg(test)]
mod numbers;
#[cfg(test)]
mod places;
