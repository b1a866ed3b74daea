//! Why there is nothing to do.
ghost use Rattle.std.specs.Prelude.{◌≡◌};
ghost use Rattle.plex_job.specs.declared.job_task.stop.Stop.TheVariants.{NoMemory as stop_no_memory};

use plex_base::NoMemory;
use report::Refusal;

/// Why words and files gave no task.
#[derive(Debug, Drop)]
pub enum Stop<'a> {
    /// The words or a file are refused.
    Refused(Refusal<'a>),
    /// Memory ran out.
    NoMemory,
}

impl From<NoMemory> for Stop<'_> {
    ghost from_gives = { λ _ stop. stop ≡ stop_no_memory };

    fn from(_: NoMemory) -> Self {
        Stop::NoMemory
    }
}
