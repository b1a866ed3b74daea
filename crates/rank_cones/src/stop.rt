//! Why the points of a rank are not pushed to the end.
ghost use Rattle.std.specs.Prelude.{◌≡◌};
ghost use Rattle.rank_cones.specs.declared.stop.Stop.TheVariants.{Twist, NoMemory};

use plex_base::PointKey;
use std::alloc::{AllocError, AllocFailed};

/// A face that a cell sees under no orientation, by its key in that cell; or want of memory.
#[derive(Clone, Copy, Debug)]
pub(crate) enum Stop {
    Twist(PointKey),
    NoMemory,
}

impl From<PointKey> for Stop {
    ghost from_gives = { λ key stop. stop ≡ Twist key };

    fn from(key: PointKey) -> Stop {
        Stop::Twist(key)
    }
}

impl From<plex_base::NoMemory> for Stop {
    ghost from_gives = { λ _ stop. stop ≡ NoMemory };

    fn from(_: plex_base::NoMemory) -> Stop {
        Stop::NoMemory
    }
}

impl From<AllocError> for Stop {
    ghost from_gives = { λ _ stop. stop ≡ NoMemory };

    fn from(_: AllocError) -> Stop {
        Stop::NoMemory
    }
}

impl<T: Drop> From<AllocFailed<T>> for Stop {
    ghost from_gives = { λ _ stop. stop ≡ NoMemory };

    fn from(_: AllocFailed<T>) -> Stop {
        Stop::NoMemory
    }
}
