//! Tokens with their lines, and the numbers and texts that they write, of mesh files.
//!
//! A [`Scan`] goes over the bytes of a file once, as a cursor: header lines, the tokens between
//! them, quoted texts. The definitions of `input_defs::scan_defs` say what it finds.
#![tactic(auto)]

mod cursor;
mod fixed;
mod parts;
mod print;
mod rounding;
mod scanning;
mod whole;

pub use fixed::read_fixed;
pub use input_defs::scan_defs::{NumberFault, Token};
pub use print::print_fixed;
pub use scanning::Scan;
pub use whole::{read_int, read_uint};
