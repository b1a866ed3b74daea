//! What the clauses on the outside speak of: what an object tells of itself, how often it has
//! failed, what a call appended to the bytes of a sink, and the two faults of calls that write.
//!
//! The definitions stand in `specs/`, and lemmas on calls that write one after another in `proofs/`.
#![tactic(auto)]

ghost use Rattle.std.specs.Prelude.{◌≡◌};
ghost use Rattle.cause_defs.specs.declared.ReportFault.TheVariants.{Write, NoMemory as OutOfMemory};

use plex_base::NoMemory;
use std::alloc::{AllocError, AllocFailed};

/// A write or a flush has failed.
#[derive(Clone, Copy, Debug, PartialEq, Eq)]
pub struct Failed;

/// Why a report was not written to its end.
#[derive(Clone, Copy, Debug, PartialEq, Eq)]
pub enum ReportFault {
    /// The sink has failed.
    Write,
    /// Memory ran out.
    NoMemory,
}

impl From<Failed> for ReportFault {
    ghost from_gives = { λ _ fault. fault ≡ Write };

    fn from(_e: Failed) -> ReportFault {
        ReportFault::Write
    }
}

impl From<NoMemory> for ReportFault {
    ghost from_gives = { λ _ fault. fault ≡ OutOfMemory };

    fn from(_e: NoMemory) -> ReportFault {
        ReportFault::NoMemory
    }
}

impl From<AllocError> for ReportFault {
    ghost from_gives = { λ _ fault. fault ≡ OutOfMemory };

    fn from(_e: AllocError) -> ReportFault {
        ReportFault::NoMemory
    }
}

impl<T: Drop> From<AllocFailed<T>> for ReportFault {
    ghost from_gives = { λ _ fault. fault ≡ OutOfMemory };

    fn from(_e: AllocFailed<T>) -> ReportFault {
        ReportFault::NoMemory
    }
}
