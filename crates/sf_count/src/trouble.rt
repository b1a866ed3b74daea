//! Why nothing was counted.

ghost use Rattle.std.specs.Prelude.{◌≡◌};
ghost use Rattle.sf_count.specs.declared.trouble.Trouble.TheVariants.{Write, Memory};

use plex_base::NoMemory;
use sf_graph::ForestFault;
use shelf_io::Failed;
use std::alloc::{AllocError, AllocFailed};

/// Why nothing was counted.
#[derive(Clone, Copy)]
pub(crate) enum Trouble {
    /// Other words than the two kinds of calls have, or numbers out of range.
    Words,
    /// The output could not be written.
    Write,
    /// Memory ran out.
    Memory,
}

impl Trouble {
    /// The exit status.
    pub(crate) fn code(self) -> u8 {
        match self {
            Trouble::Words => 2,
            Trouble::Write => 7,
            Trouble::Memory => 8,
        }
    }
}

impl From<Failed> for Trouble {
    ghost from_gives = { λ _ trouble. trouble ≡ Write };

    fn from(_: Failed) -> Trouble {
        Trouble::Write
    }
}

impl From<NoMemory> for Trouble {
    ghost from_gives = { λ _ trouble. trouble ≡ Memory };

    fn from(_: NoMemory) -> Trouble {
        Trouble::Memory
    }
}

impl From<ForestFault> for Trouble {
    fn from(fault: ForestFault) -> Trouble {
        match fault {
            ForestFault::NoMemory => Trouble::Memory,
            _ => Trouble::Words,
        }
    }
}

impl From<AllocError> for Trouble {
    ghost from_gives = { λ _ trouble. trouble ≡ Memory };

    fn from(_: AllocError) -> Trouble {
        Trouble::Memory
    }
}

impl<T: Drop> From<AllocFailed<T>> for Trouble {
    ghost from_gives = { λ _ trouble. trouble ≡ Memory };

    fn from(_: AllocFailed<T>) -> Trouble {
        Trouble::Memory
    }
}
