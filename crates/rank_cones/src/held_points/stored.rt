//! Faces and edges under their keys.

/// A face: its key, and its vertices in the order of the cell of the key, with 4294967295 behind those of a triangle.
#[derive(Clone, Copy, Debug)]
pub(crate) struct HeldFace {
    pub(crate) key: u64,
    pub(crate) corners: [u32; 4],
}

/// An edge: its key, and its ends in the order of the cell of the key.
#[derive(Clone, Copy, Debug)]
pub(crate) struct HeldEdge {
    pub(crate) key: u64,
    pub(crate) ends: [u32; 2],
}
