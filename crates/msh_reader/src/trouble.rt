//! Why a section was not read.

ghost use Rattle.std.specs.Prelude.{◌≡◌};
ghost use Rattle.msh_reader.specs.Going.{trouble_of, no_memory};

use input_defs::{DataFault, MshFault};
use std::alloc::{AllocError, AllocFailed};

/// Why a section was not read.
#[derive(Clone, Copy)]
pub enum Trouble {
    /// A fault of the file, or want of memory.
    Fault(MshFault),
    /// The body ends before the section has all its tokens. The header line that ends it tells
    /// which fault that is.
    Ended,
}

impl From<MshFault> for Trouble {
    ghost use Rattle.msh_reader.specs.declared.trouble.Trouble.TheVariants.{Fault};

    ghost from_gives = { λ fault trouble. trouble ≡ Fault fault };

    fn from(fault: MshFault) -> Trouble {
        Trouble::Fault(fault)
    }
}

impl From<DataFault> for Trouble {
    ghost from_gives = { λ fault trouble. trouble ≡ trouble_of fault };

    fn from(fault: DataFault) -> Trouble {
        Trouble::Fault(match fault {
            DataFault::BadNumber { line } => MshFault::BadNumber { line },
            DataFault::BadCount { line } => MshFault::BadCount { line },
            DataFault::BadName { line } => MshFault::BadName { line },
            DataFault::Components { line, got } => MshFault::Components { line, got },
            DataFault::UnknownNumber { line, number } => MshFault::UnknownNumber { line, number },
            DataFault::OutOfRange { line } => MshFault::OutOfRange { line },
            DataFault::Ended { .. } => return Trouble::Ended,
            DataFault::NoMemory => MshFault::NoMemory,
        })
    }
}

impl From<AllocError> for Trouble {
    ghost from_gives = { λ _ trouble. trouble ≡ no_memory };

    fn from(_: AllocError) -> Trouble {
        Trouble::Fault(MshFault::NoMemory)
    }
}

impl<T: Drop> From<AllocFailed<T>> for Trouble {
    ghost from_gives = { λ _ trouble. trouble ≡ no_memory };

    fn from(_: AllocFailed<T>) -> Trouble {
        Trouble::Fault(MshFault::NoMemory)
    }
}
