//! Why nothing was counted.
use orient_iface::OrientFault;
use plex_base::NoMemory;
use shelf_io::Failed;
use std::alloc::{AllocError, AllocFailed};

/// Why nothing was counted.
#[derive(Clone, Copy, Debug)]
pub(crate) enum Trouble {
    /// Other words than a call has, or numbers out of range.
    Words,
    /// The output could not be written.
    Write,
    /// Memory ran out.
    Memory,
}

impl Trouble {
    /// The exit status.
    pub(crate) fn code(self) -> u8 {
        match self {
            Trouble::Words => 2,
            Trouble::Write => 7,
            Trouble::Memory => 8,
        }
    }
}

impl From<Failed> for Trouble {
    fn from(_: Failed) -> Trouble {
        Trouble::Write
    }
}

impl From<NoMemory> for Trouble {
    fn from(_: NoMemory) -> Trouble {
        Trouble::Memory
    }
}

// No face of a grid is twisted, so memory was wanting.
impl From<OrientFault> for Trouble {
    fn from(fault: OrientFault) -> Trouble {
        match fault {
            OrientFault::Twist(_) | OrientFault::NoMemory => Trouble::Memory,
        }
    }
}

impl From<AllocError> for Trouble {
    fn from(_: AllocError) -> Trouble {
        Trouble::Memory
    }
}

impl<T: Drop> From<AllocFailed<T>> for Trouble {
    fn from(_: AllocFailed<T>) -> Trouble {
        Trouble::Memory
    }
}
