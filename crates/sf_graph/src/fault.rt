ghost use Rattle.std.specs.Prelude.{◌≡◌};
ghost use Rattle.sf_graph.specs.declared.fault.ForestFault.TheVariants.{NoMemory};

use std::alloc::{AllocError, AllocFailed};
use thiserror::Error;

/// Why lists are no forest.
#[derive(Clone, Copy, Debug, PartialEq, Eq, Error)]
pub enum ForestFault {
    /// The leaf at this place of a rank names a root that is not there.
    #[error("leaf {leaf} of rank {rank} names no root")]
    RootRange { rank: u32, leaf: u32 },
    /// An earlier leaf of the rank has the same local index.
    #[error("rank {rank} has two leaves at {local}")]
    LeafTwice { rank: u32, local: u32 },
    /// Memory ran out.
    #[error("no memory")]
    NoMemory,
}

impl From<AllocError> for ForestFault {
    ghost from_gives = { λ _ fault. fault ≡ NoMemory };

    fn from(_: AllocError) -> ForestFault {
        ForestFault::NoMemory
    }
}

impl<T: Drop> From<AllocFailed<T>> for ForestFault {
    ghost from_gives = { λ _ fault. fault ≡ NoMemory };

    fn from(_: AllocFailed<T>) -> ForestFault {
        ForestFault::NoMemory
    }
}
