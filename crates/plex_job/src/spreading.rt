//! A mesh on the ranks of its plan.
ghost use Rattle.std.specs.Prelude.{◌≡◌, ◌<◌, ◌++◌, length};
ghost use Rattle.cause_defs.specs.Reports.{Reports};
ghost use Rattle.sf_defs.specs.Rounds.{Round as Kept};
ghost use Rattle.headline_defs.specs.StepText.{step_lines};
ghost use Rattle.input_defs.specs.States.{states};
ghost use Rattle.step_report.specs.Conditions.{CanPrint};
ghost use Rattle.plex_job.specs.Once.{state_at};
ghost use Rattle.plex_job.specs.Begun.{before_step};
ghost use Rattle.plex_job.specs.Spreading.{IsSpread, IsStepOf, printed, printed_at};

use crate::job_task::Task;
use cause_defs::ReportFault;
use dist_number::{Bases, Numbers};
use dist_state::Dist;
use input_defs::{Show, Step};
use report::write_head;
use sf_fabric::Round;
use sf_graph::Forest;
use shelf_io::Sink;
use std::alloc::Global;
use step_report::write_step;

/// A task with its mesh as it is spread over ranks.
#[derive(Drop)]
pub(crate) struct Spreading<'a> {
    pub(crate) task: &'a Task,
    pub(crate) dist: Dist,
    /// Where each rank's points were under the first part.
    pub(crate) trace: Forest,
}

impl Spreading<'_> {
    /// What is shown of each step.
    fn show(&self) -> Show
        ensures { result ≡ (printed self.now).show }
    {
        Show {
            summary: self.task.summary,
            ..self.task.plan.show()
        }
    }

    /// Writes what stands before the lines of step `i`: the head of the text before the first one.
    fn write_before<W: Sink>(&self, alloc: Global, i: usize, out: &mut W) -> Result<(), ReportFault>
        ensures { Reports W.written W.flushed W.faults W.counts_failures_alone result out.old out.new (before_step (printed self.now) i) }
    {
        if i > 0 {
            return Ok(());
        }
        let task = self.task;
        write_head(alloc, &task.mesh, &task.plan, &self.show(), out)
    }

    /// Writes the lines of step `i`, and before those of the first one the head of the text. `rounds`
    /// are those that the step shows.
    pub(crate) fn write_step<W: Sink>(
        &self,
        alloc: Global,
        i: usize,
        bases: &Bases,
        numbers: &Numbers,
        rounds: &[Round],
        out: &mut W,
    ) -> Result<(), ReportFault>
        requires spread { IsSpread self.now }
        requires i { i < length (states (printed self.now).mesh (printed self.now).plan) }
        requires can { CanPrint (printed_at self.now i bases.now numbers.now rounds.now) }
        ensures { (home latest : Kept) → IsStepOf self.now i home latest bases.now numbers.now rounds.now
            → Reports W.written W.flushed W.faults W.counts_failures_alone result out.old out.new
            (before_step (printed self.now) i ++ step_lines (printed self.now) (state_at (printed self.now) i) home latest) }
    {
        self.write_before(alloc, i, out)?;
        let show = self.show();
        write_step(
            alloc,
            i as u32,
            &Step::Part,
            &self.dist,
            bases,
            numbers,
            &self.trace,
            rounds,
            &show,
            out,
        )
    }
}
