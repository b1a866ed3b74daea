//! Want of memory as a fault.

ghost use Rattle.std.specs.Prelude.{◌≡◌};
ghost use Rattle.input_defs.specs.declared.DataFault.TheVariants.{NoMemory as data_no_memory};
ghost use Rattle.input_defs.specs.declared.MshFault.TheVariants.{NoMemory as msh_no_memory};

use crate::{DataFault, MshFault};
use std::alloc::{AllocError, AllocFailed};

impl From<AllocError> for DataFault {
    ghost from_gives = { λ _ fault. fault ≡ data_no_memory };

    fn from(_: AllocError) -> DataFault {
        DataFault::NoMemory
    }
}

impl<T: Drop> From<AllocFailed<T>> for DataFault {
    ghost from_gives = { λ _ fault. fault ≡ data_no_memory };

    fn from(_: AllocFailed<T>) -> DataFault {
        DataFault::NoMemory
    }
}

impl From<AllocError> for MshFault {
    ghost from_gives = { λ _ fault. fault ≡ msh_no_memory };

    fn from(_: AllocError) -> MshFault {
        MshFault::NoMemory
    }
}

impl<T: Drop> From<AllocFailed<T>> for MshFault {
    ghost from_gives = { λ _ fault. fault ≡ msh_no_memory };

    fn from(_: AllocFailed<T>) -> MshFault {
        MshFault::NoMemory
    }
}
