//! What each limit is, and how keys and dimensions are ordered.
//!
//! Each function below does nothing: its contract is the law, and its proof is the law's.

ghost use Rattle.std.specs.Prelude.{◌≡◌, ℕ};
ghost use Rattle.std.specs.Ordering.{nat_cmp};
ghost use Rattle.plex_base.specs.declared.dim.Dim.{Dim as Dimension};
ghost use Rattle.plex_base.specs.declared.key.PointKey.{PointKey as Key};
ghost use Rattle.plex_base.specs.Dim.{dim_number};

use crate::limits::*;
use crate::{Dim, PointKey};

/// The limits within which every promise holds.
pub fn limits_are_these()
    ensures ranks { MAX_RANKS ≡ 64 }
    ensures cells { MAX_CELLS ≡ 250000 }
    ensures nodes { MAX_NODES ≡ 500000 }
    ensures elements { MAX_ELEMENTS ≡ 1000000 }
    ensures steps { MAX_STEPS ≡ 32 }
    ensures overlap { MAX_OVERLAP ≡ 4 }
    ensures overlap_cells { MAX_OVERLAP_CELLS ≡ 4000000 }
    ensures file_bytes { MAX_FILE_BYTES ≡ 268435456 }
    ensures names { MAX_NAMES ≡ 1024 }
    ensures data_sections { MAX_DATA_SECTIONS ≡ 16 }
    ensures dofs_lines { MAX_DOFS_LINES ≡ 8 }
    ensures dofs { MAX_DOFS ≡ 16 }
{}

/// Keys are ordered by their numbers.
pub fn keys_are_ordered_by_number()
    ensures { (a b : Key) → ⟦<PointKey as Ord>⟧.cmp a b ≡ nat_cmp a.0 b.0 }
{}

/// Dimensions are ordered by their numbers.
pub fn dimensions_are_ordered_by_number()
    ensures { (a b : Dimension) → ⟦<Dim as Ord>⟧.cmp a b ≡ nat_cmp (dim_number a) (dim_number b) }
{}
