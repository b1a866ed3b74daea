//! The line of a word of a round.

ghost use Rattle.std.specs.Prelude.{◌≡◌, ◌++◌, ◌<◌, [], length, get_or, map, flat_map, OnOk};
ghost use Rattle.sf_defs.specs.declared.Ask.{Ask};
ghost use Rattle.sf_defs.specs.Rounds.{in_order, entry_at};
ghost use Rattle.headline_defs.specs.Lines.{turn_text, window_line};
ghost use Rattle.report.specs.report_lines.Windows.{HasEntry, HasEntries};

use crate::report_lines::numbers::{append_also, append_field, append_number};
use plex_base::NoMemory;
use sf_defs::Turn;
use sf_fabric::Round;

/// An ask by its turn: its rank, its value, and what it fetched.
#[tactic(auto, unfolding(headline_defs::specs::Lines::turn_text), using(std::proofs::Common::append_assoc))]
fn append_turn(line: &mut Vec<u8>, round: &Round, turn: Turn) -> Result<(), NoMemory>
    requires { HasEntry round.now turn }
    ensures { OnOk result (line.new.items ≡ line.old.items ++ turn_text (entry_at round.now.asks round.now.got turn)) }
{
    let place = turn.index as usize;
    let value = round.asks(turn.rank)[place].value;
    let got = round.got(turn.rank)[place];
    append_also(line, u64::from(turn.rank))?;
    append_field(line, b":", value)?;
    append_field(line, b":", got)
}

/// The asks on a word, in its order.
fn append_turns(line: &mut Vec<u8>, round: &Round, word: u32) -> Result<(), NoMemory>
    requires entries { HasEntries round.now }
    requires word { word < length round.now.before }
    ensures { OnOk result (line.new.items ≡ line.old.items ++ flat_map turn_text (in_order round.now word)) }
{
    for turn in round.order(word) {
        append_turn(line, round, *turn)?;
    }
    Ok(())
}

/// The line of a word of a round that is kept under this name: its first and its last value, and the
/// asks on it in their order.
///
/// Fails only for want of memory.
#[tactic(auto, unfolding(headline_defs::specs::Lines::window_line), using(std::proofs::Common::append_assoc))]
pub fn append_window_line(
    line: &mut Vec<u8>,
    name: &[u8],
    round: &Round,
    word: u32,
) -> Result<(), NoMemory>
    requires entries { HasEntries round.now }
    requires word { word < length round.now.before }
    ensures { OnOk result (line.new.items ≡ line.old.items ++ window_line name.now word (get_or round.now.before word 0) (get_or round.now.after word 0) (in_order round.now word)) }
{
    line.extend_from_slice(b"W ")?;
    line.extend_from_slice(name)?;
    append_also(line, u64::from(word))?;
    append_also(line, round.before()[word as usize])?;
    append_also(line, round.after()[word as usize])?;
    append_turns(line, round, word)?;
    line.push(b'\n')?;
    Ok(())
}
