//! The lines of plans that are refused.

ghost use Rattle.std.specs.Prelude.{◌≡◌, ◌≢◌, ◌++◌, OnOk};
ghost use Rattle.input_defs.specs.Refused.{plan_text, plan_refused};

use crate::line::{append_on_line, append_pair, append_place, append_two, append_wrong};
use input_defs::PlanFault;
use plex_base::NoMemory;

/// What stands after `refused: plan`.
#[tactic(auto, unfolding(input_defs::specs::Refused::plan_text), using(std::proofs::Common::append_assoc))]
fn append_plan_fault(to: &mut Vec<u8>, fault: PlanFault) -> Result<(), NoMemory>
    requires { fault ≢ PlanFault.NoMemory }
    ensures { OnOk result (to.new.items ≡ to.old.items ++ plan_text fault) }
{
    match fault {
        PlanFault::Word { line } => append_on_line(to, line, b"word"),
        PlanFault::Ranks { line, got } => append_wrong(to, line, b"ranks", got),
        PlanFault::NoPart { line } => append_on_line(to, line, b"no part"),
        PlanFault::Overlap { line, total } => append_wrong(to, line, b"overlap", total),
        PlanFault::Dofs { line } => append_on_line(to, line, b"dofs"),
        PlanFault::Steps { line } => append_on_line(to, line, b"steps"),
        PlanFault::PartLength { line, want, got } => {
            append_place(to, line)?;
            append_two(
                to,
                b"part length",
                u64::from(got),
                b" want",
                u64::from(want),
            )
        }
        PlanFault::PartRank { line, rank } => append_wrong(to, line, b"part rank", rank),
        PlanFault::Weight { line, cells, ranks } => {
            append_place(to, line)?;
            append_pair(to, b"weight", cells, ranks)
        }
        PlanFault::NotYet { line } => append_on_line(to, line, b"not yet"),
        PlanFault::NoMemory => unreachable!(),
    }
}

/// The line of a plan that is refused.
#[tactic(auto, using(std::proofs::Common::append_assoc))]
pub(crate) fn append_plan(line: &mut Vec<u8>, fault: PlanFault) -> Result<(), NoMemory>
    requires { fault ≢ PlanFault.NoMemory }
    ensures { OnOk result (line.new.items ≡ line.old.items ++ plan_refused fault) }
{
    line.extend_from_slice(b"refused: plan ")?;
    append_plan_fault(line, fault)?;
    line.push(b'\n')?;
    Ok(())
}
