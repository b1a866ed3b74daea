//! Tests of the algebra of star forests, and of slots.

#[cfg(test)]
mod algebra;
#[cfg(test)]
mod slots;
#[cfg(test)]
mod texts;
#[cfg(test)]
mod words;
