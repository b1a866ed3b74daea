//! Values of data sections and their words of 64 bits.

mod passing;

pub use passing::words_fit;
