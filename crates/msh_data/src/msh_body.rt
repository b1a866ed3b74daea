//! The body of a section of a mesh file, number by number and text by text.
//!
//! Each call reads on from where a scan stands in a body, by the definitions of `input_defs`, and
//! stays in that body.

mod numbers;
mod texts;
mod tokens;

pub use input_defs::DataFault;
pub use numbers::{fixed, int, pass_real, uint};
pub use texts::quoted;
pub use tokens::end_of_body;
