//! How a call ends.
ghost use Rattle.std.specs.Prelude.{◌≡◌};
ghost use Rattle.plex_job.specs.Statuses.{ending};

use cause_defs::ReportFault;
use input_defs::Status;

/// The status of a call that has this one once its text is written.
pub(crate) fn ending(written: Result<(), ReportFault>, status: Status) -> Status
    ensures { result ≡ ending written status }
{
    match written {
        Ok(()) => status,
        Err(ReportFault::Write) => Status::WriteFault,
        Err(ReportFault::NoMemory) => Status::NoMemory,
    }
}
