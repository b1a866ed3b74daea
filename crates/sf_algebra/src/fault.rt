ghost use Rattle.std.specs.Prelude.{◌≡◌};
ghost use Rattle.sf_algebra.specs.declared.fault.InvertFault.TheVariants.{NoMemory as OutOfMemory};

use plex_base::NoMemory;
use std::alloc::{AllocError, AllocFailed};
use thiserror::Error;

/// Why a forest has no converse.
#[derive(Clone, Copy, Debug, PartialEq, Eq, Error)]
pub enum InvertFault {
    /// This root has two leaves.
    #[error("root {root} of rank {rank} has two leaves")]
    Shared { rank: u32, root: u32 },
    /// Memory ran out.
    #[error("no memory")]
    NoMemory,
}

impl From<NoMemory> for InvertFault {
    ghost from_gives = { λ _ fault. fault ≡ OutOfMemory };

    fn from(_: NoMemory) -> InvertFault {
        InvertFault::NoMemory
    }
}

impl From<AllocError> for InvertFault {
    ghost from_gives = { λ _ fault. fault ≡ OutOfMemory };

    fn from(_: AllocError) -> InvertFault {
        InvertFault::NoMemory
    }
}

impl<T: Drop> From<AllocFailed<T>> for InvertFault {
    ghost from_gives = { λ _ fault. fault ≡ OutOfMemory };

    fn from(_: AllocFailed<T>) -> InvertFault {
        InvertFault::NoMemory
    }
}
