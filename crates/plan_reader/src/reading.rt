//! Reading a plan.

ghost use Rattle.std.specs.Prelude.{◌≡◌, ◌≢◌, ◌≤◌, length, Ok, Err, IfOk, IfErr};
ghost use Rattle.input_defs.specs.declared.PlanFault.TheVariants.{NoMemory};
ghost use Rattle.input_defs.specs.Plans.{plan_of};

use crate::draft::Draft;
use crate::plan::Plan;
use crate::tokens::split_line;
use input_defs::PlanFault;
use plex_base::MAX_FILE_BYTES;
use std::alloc::Global;

/// Reads a plan file. Condition: at most [`MAX_FILE_BYTES`].
///
/// An `Err` is the first fault by line, and in a line `Word` where it has none of the forms or is at
/// the wrong place, then `Ranks`, `NoPart`, `Steps`, `Overlap`, `Dofs`; at the end of the file
/// `NoPart` where there is no part. `NoMemory` comes for want of memory alone, and may stand in
/// place of any other answer.
pub fn read_plan(alloc: Global, bytes: &[u8]) -> Result<Plan, PlanFault>
    requires { length bytes.now ≤ MAX_FILE_BYTES }
    ensures plan { IfOk result (λ p. plan_of bytes.now ≡ Ok p.plan) }
    ensures fault { IfErr result (λ e. e ≢ NoMemory → plan_of bytes.now ≡ Err e) }
{
    let mut draft = Draft::new(alloc);
    let mut line = 0;
    let mut left = Some(bytes);
    while let Some(rest) = left {
        let (text, after) = split_line(rest);
        line += 1;
        draft.read_line(alloc, line, text)?;
        left = after;
    }
    draft.finish(line)
}
