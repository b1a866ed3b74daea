//! The words of the rounds of a step.

ghost use Rattle.std.specs.Prelude.{◌≡◌, ◌<◌, length, get_or, flat_map, codes};
ghost use Rattle.std.specs.List.{AllByRecursion};
ghost use Rattle.cause_defs.specs.Reports.{Reports};
ghost use Rattle.sf_defs.specs.Rounds.{IsLegal, in_order};
ghost use Rattle.headline_defs.specs.Lines.{window_line};
ghost use Rattle.headline_defs.specs.StepText.{windows_text, where_shown};
ghost use Rattle.walk_defs.specs.step_defs.Steps.{plain_round};
ghost use Rattle.report.specs.report_lines.Windows.{HasEntries};

use cause_defs::ReportFault;
use report::report_lines::{append_window_line, write_line};
use sf_defs::Tag;
use sf_fabric::Round;
use shelf_io::Sink;

/// Writes the line of a word.
fn write_word<W: Sink>(
    line: &mut Vec<u8>,
    name: &[u8],
    round: &Round,
    word: u32,
    out: &mut W,
) -> Result<(), ReportFault>
    requires entries { HasEntries round.now }
    requires word { word < length round.now.before }
    ensures { Reports W.written W.flushed W.faults W.counts_failures_alone result out.old out.new
        (window_line name.now word (get_or round.now.before word 0) (get_or round.now.after word 0) (in_order round.now word)) }
{
    line.clear();
    append_window_line(line, name, round, word)?;
    write_line(out, line)
}

/// Writes the words of a round under the name of its kind.
fn write_words<W: Sink>(
    line: &mut Vec<u8>,
    name: &[u8],
    round: &Round,
    out: &mut W,
) -> Result<(), ReportFault>
    requires { HasEntries round.now }
    ensures { Reports W.written W.flushed W.faults W.counts_failures_alone result out.old out.new (windows_text name.now round.now) }
{
    for word in 0..round.before().len() as u32 {
        write_word(line, name, round, word, out)?;
    }
    Ok(())
}

/// Writes the words of a round that is kept.
#[tactic(auto, unfolding(walk_defs::specs::step_defs::Steps::plain_round))]
fn write_round<W: Sink>(line: &mut Vec<u8>, round: &Round, out: &mut W) -> Result<(), ReportFault>
    requires { HasEntries round.now }
    ensures { Reports W.written W.flushed W.faults W.counts_failures_alone result out.old out.new (plain_round round.now) }
{
    match round.tag() {
        Tag::Home => write_words(line, b"home", round, out),
        Tag::Number => write_words(line, b"number", round, out),
        Tag::Free => Ok(()),
    }
}

/// Writes the words of all rounds of a step.
fn write_rounds<W: Sink>(
    line: &mut Vec<u8>,
    rounds: &[Round],
    out: &mut W,
) -> Result<(), ReportFault>
    requires { AllByRecursion IsLegal rounds.now }
    ensures { Reports W.written W.flushed W.faults W.counts_failures_alone result out.old out.new (flat_map plain_round rounds.now) }
{
    for i in 0..rounds.len() {
        write_round(line, &rounds[i], out)?;
    }
    Ok(())
}

/// Writes them where they are shown.
pub(crate) fn write_windows<W: Sink>(
    shown: bool,
    line: &mut Vec<u8>,
    rounds: &[Round],
    out: &mut W,
) -> Result<(), ReportFault>
    requires { AllByRecursion IsLegal rounds.now }
    ensures { Reports W.written W.flushed W.faults W.counts_failures_alone result out.old out.new (where_shown shown (flat_map plain_round rounds.now)) }
{
    if shown {
        return write_rounds(line, rounds, out);
    }
    Ok(())
}
