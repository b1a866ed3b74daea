//! What lines are made in.

use mesh_defs::ConeEntry;

/// The bytes of the line that is being made, and the entries of the closure that it shows. Both are
/// used again for the next line.
#[derive(Debug, Drop)]
pub(crate) struct Pen {
    pub line: Vec<u8>,
    pub closure: Vec<ConeEntry>,
}
