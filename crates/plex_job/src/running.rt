//! A task from its home round to its last line.
ghost use Rattle.std.specs.Prelude.{◌≡◌, true, Ok};
ghost use Rattle.headline_defs.specs.Headline.{Headline};
ghost use Rattle.plex_job.specs.job_task.Reading.{task_view, IsBuilt};
ghost use Rattle.plex_job.specs.Seen.{just, seen_alone};
ghost use Rattle.plex_job.specs.Statuses.{UnlessWriteFault, UnlessAnswer};

use crate::distributing::spread_mesh;
use crate::ending::ending;
use crate::job_task::Task;
use input_defs::Status;
use orient_iface::OrientFault;
use report::{Refusal, write_refusal};
use sf_fabric::Fabric;
use shelf_io::Sink;
use std::alloc::Global;
use std::thread::Threads;

/// Runs the rounds of a task and writes its text, or refuses its mesh for a twist.
pub(crate) fn perform<R: Threads + Sync, W: Sink, F: Fabric>(
    rt: &R,
    alloc: Global,
    task: &Task,
    out: &mut W,
    fabric: &mut F,
) -> Status
    requires { IsBuilt (task_view task.now) }
    ensures headline { Headline (just (Ok (task_view task.now))) (seen_alone W.written W.flushed W.faults F.kept out.old out.new fabric.old fabric.new result) }
    ensures sink_count { W.counts_failures_alone out.old ≡ true → UnlessWriteFault result (W.faults out.new ≡ W.faults out.old) }
    ensures fault_flush { UnlessAnswer result (W.flushed out.new ≡ W.flushed out.old) }
{
    // Every mesh is a right one: the proof takes this from the call.
    let _dim = task.mesh.dim();
    match spread_mesh(rt, alloc, task, fabric) {
        Ok((spreading, home)) => {
            let written = spreading.write(alloc, home, out, fabric);
            ending(written, Status::Done)
        }
        Err(OrientFault::Twist(key)) => {
            let written = write_refusal(alloc, &Refusal::Twist(key), out);
            ending(written, Status::Mesh)
        }
        Err(OrientFault::NoMemory) => Status::NoMemory,
    }
}
