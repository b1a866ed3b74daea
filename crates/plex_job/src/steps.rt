//! The steps of a plan, one after another.
ghost use Rattle.sf_defs.specs.Rounds.{Round as Kept};
ghost use Rattle.plex_job.specs.Once.{IsHome};
ghost use Rattle.plex_job.specs.Begun.{ReportsSteps, DeliversText};
ghost use Rattle.plex_job.specs.Spreading.{IsSpread, printed};

use crate::spreading::Spreading;
use cause_defs::ReportFault;
use dist_number::{number, spread};
use report::write_end;
use sf_fabric::{Fabric, Round};
use shelf_io::Sink;
use std::alloc::Global;

impl Spreading<'_> {
    /// Runs the number round of each part, and writes the lines of a step after its round.
    fn write_steps<W: Sink, F: Fabric>(
        &self,
        alloc: Global,
        home: Round,
        out: &mut W,
        fabric: &mut F,
    ) -> Result<(), ReportFault>
        requires spread { IsSpread self.now }
        requires home { IsHome (printed self.now).mesh (printed self.now).plan home }
        ensures { ReportsSteps W.written W.flushed W.faults W.counts_failures_alone F.kept (printed self.now) home result out.old out.new fabric.old fabric.new }
    {
        // The home round is shown with the first step.
        let mut rounds = Vec::new(alloc);
        rounds.push(home)?;
        for i in 0..self.task.plan.steps() {
            let (bases, round) = number(alloc, &self.dist, fabric)?;
            let numbers = spread(alloc, &self.dist, &bases, fabric)?;
            rounds.push(round)?;
            self.write_step(alloc, i, &bases, &numbers, &rounds, out)?;
            rounds.clear();
        }
        Ok(())
    }

    /// Writes the whole text, step by step, and flushes.
    pub(crate) fn write<W: Sink, F: Fabric>(
        &self,
        alloc: Global,
        home: Round,
        out: &mut W,
        fabric: &mut F,
    ) -> Result<(), ReportFault>
        requires spread { IsSpread self.now }
        requires home { IsHome (printed self.now).mesh (printed self.now).plan home }
        ensures { DeliversText W.written W.flushed W.faults W.counts_failures_alone F.kept (printed self.now) home result out.old out.new fabric.old fabric.new }
    {
        self.write_steps(alloc, home, out, fabric)?;
        write_end(out)
    }
}
