//! What bytes say as text: lines, blanks and tokens, numbers and their shortest decimal texts.
//!
//! The definitions stand in `specs/`, over plain lists of bytes. There is no code.
