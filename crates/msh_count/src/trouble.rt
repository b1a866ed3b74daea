//! Why nothing was counted.

ghost use Rattle.std.specs.Prelude.{◌≡◌};
ghost use Rattle.msh_count.specs.declared.trouble.Trouble.TheVariants.{Write, Memory};
ghost use Rattle.msh_count.specs.Statuses.{status_of, trouble_of, mesh_trouble, accept_trouble, orient_trouble};

use mesh_check::MeshFault;
use msh_reader::MshFault;
use orient_iface::OrientFault;
use plex_base::NoMemory;
use shelf_io::{Failed, ShelfFault};
use std::alloc::{AllocError, AllocFailed};

/// Why nothing was counted.
#[derive(Clone, Copy)]
pub enum Trouble {
    /// There is not the name of a file, and after it how far it is taken, or nothing.
    Words,
    /// The file is no right mesh file, stands for no mesh, or has a twisted face.
    Mesh,
    /// The file could not be read, or has more bytes than the limit.
    Read,
    /// The output could not be written.
    Write,
    /// Memory ran out.
    Memory,
}

impl Trouble {
    /// The exit status.
    pub(crate) fn code(self) -> u8
        ensures { result ≡ status_of self }
    {
        match self {
            Trouble::Words => 2,
            Trouble::Mesh => 4,
            Trouble::Read => 6,
            Trouble::Write => 7,
            Trouble::Memory => 8,
        }
    }
}

impl From<ShelfFault> for Trouble {
    ghost from_gives = { λ fault trouble. trouble ≡ trouble_of fault };

    fn from(fault: ShelfFault) -> Trouble {
        match fault {
            ShelfFault::Failed | ShelfFault::TooLong => Trouble::Read,
            ShelfFault::NoMemory => Trouble::Memory,
        }
    }
}

impl From<Failed> for Trouble {
    ghost from_gives = { λ _ trouble. trouble ≡ Write };

    fn from(_: Failed) -> Trouble {
        Trouble::Write
    }
}

impl From<MshFault> for Trouble {
    ghost from_gives = { λ fault trouble. trouble ≡ mesh_trouble fault };

    fn from(fault: MshFault) -> Trouble {
        match fault {
            MshFault::NoMemory => Trouble::Memory,
            _ => Trouble::Mesh,
        }
    }
}

impl From<MeshFault> for Trouble {
    ghost from_gives = { λ fault trouble. trouble ≡ accept_trouble fault };

    fn from(fault: MeshFault) -> Trouble {
        match fault {
            MeshFault::NoMemory => Trouble::Memory,
            _ => Trouble::Mesh,
        }
    }
}

impl From<OrientFault> for Trouble {
    ghost from_gives = { λ fault trouble. trouble ≡ orient_trouble fault };

    fn from(fault: OrientFault) -> Trouble {
        match fault {
            OrientFault::NoMemory => Trouble::Memory,
            OrientFault::Twist(_) => Trouble::Mesh,
        }
    }
}

impl From<NoMemory> for Trouble {
    ghost from_gives = { λ _ trouble. trouble ≡ Memory };

    fn from(_: NoMemory) -> Trouble {
        Trouble::Memory
    }
}

impl From<AllocError> for Trouble {
    ghost from_gives = { λ _ trouble. trouble ≡ Memory };

    fn from(_: AllocError) -> Trouble {
        Trouble::Memory
    }
}

impl<T: Drop> From<AllocFailed<T>> for Trouble {
    ghost from_gives = { λ _ trouble. trouble ≡ Memory };

    fn from(_: AllocFailed<T>) -> Trouble {
        Trouble::Memory
    }
}
