//! What the bytes of a mesh file say, line by line, token by token and number by number, over plain
//! lists.
//!
//! The definitions stand in `specs/`, after the MSH format of the Gmsh manual. Here are the types
//! that they share with the code above, which `scan` hands on.

/// A run of bytes of one line of a mesh file: a token, the name on a header line, or a quoted text
/// (Gmsh manual, MSH format).
#[derive(Clone, Copy, Debug, PartialEq, Eq)]
pub struct Token {
    /// The place of its first byte in the file, counted in bytes from 0.
    pub start: usize,
    /// The place after its last byte.
    pub end: usize,
    /// The number of its line, from 1.
    pub line: u32,
}

/// Why a token is no number of the kind that was read. Shape comes before range.
#[derive(Clone, Copy, Debug, PartialEq, Eq)]
pub enum NumberFault {
    /// It has not the shape of such a number.
    NotNumber,
    /// It has, and its value is out of the range of that kind.
    OutOfRange,
}
