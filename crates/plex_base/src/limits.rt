//! The limits within which every promise holds.

/// Ranks: from 1 to this many.
pub const MAX_RANKS: u32 = 64;

/// Cells of a mesh, after merging.
pub const MAX_CELLS: u32 = 250_000;

/// Nodes of a mesh file.
pub const MAX_NODES: u32 = 500_000;

/// Elements of a mesh file.
pub const MAX_ELEMENTS: u32 = 1_000_000;

/// Part and overlap lines of a plan.
pub const MAX_STEPS: u32 = 32;

/// Layers of overlap since the last part, or since they were dropped.
pub const MAX_OVERLAP: u32 = 4;

/// Cells times ranks, where a plan has an overlap.
pub const MAX_OVERLAP_CELLS: u32 = 4_000_000;

/// Bytes of one file.
pub const MAX_FILE_BYTES: usize = 268_435_456;

/// Physical names of a mesh file.
pub const MAX_NAMES: u32 = 1_024;

/// Data sections of a mesh file.
pub const MAX_DATA_SECTIONS: u32 = 16;

/// `dofs` lines of a plan.
pub const MAX_DOFS_LINES: u32 = 8;

/// Degrees of freedom per dimension in a `dofs` line.
pub const MAX_DOFS: u32 = 16;
