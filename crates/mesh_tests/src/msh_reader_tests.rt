//! Tests of the reader of mesh files: files that it takes with what they say, and files that it
//! refuses with their first fault.

#[cfg(test)]
mod content;
#[cfg(test)]
mod faults;
#[cfg(test)]
mod files;
