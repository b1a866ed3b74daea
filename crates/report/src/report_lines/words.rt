//! The words of a point in a field.

ghost use Rattle.std.specs.Prelude.{◌≡◌, ◌++◌, ◌∷◌, nat_lt, flat_map, codes, OnOk};
ghost use Rattle.input_defs.specs.Further.{field_text};
ghost use Rattle.walk_defs.specs.step_defs.Words.{signed_of};
ghost use Rattle.walk_defs.specs.step_defs.Points.{words_text};
ghost use Rattle.report.specs.report_lines.Words.{word_text, words_by};

use crate::report_lines::numbers::{append_field, append_fixed, append_number};
use plex_base::NoMemory;

/// The value whose two's complement a word is.
#[tactic(auto, unfolding(walk_defs::specs::step_defs::Words::signed_of))]
pub fn signed_of(word: u64) -> i64
    ensures { result ≡ signed_of word }
{
    word.cast_signed()
}

/// One word: a fixed-point value, or a whole number.
fn append_word(line: &mut Vec<u8>, is_data: bool, word: u64) -> Result<(), NoMemory>
    ensures { OnOk result (line.new.items ≡ line.old.items ++ word_text is_data word) }
{
    if is_data {
        append_fixed(line, signed_of(word))
    } else {
        append_number(line, word)
    }
}

/// Words after their first one, each after a comma.
fn append_more(line: &mut Vec<u8>, is_data: bool, words: &[u64]) -> Result<(), NoMemory>
    ensures { OnOk result (line.new.items ≡ line.old.items ++ flat_map (λ w. codes "," ++ word_text is_data w) words.now) }
{
    for word in words {
        line.push(b',')?;
        append_word(line, is_data, *word)?;
    }
    Ok(())
}

/// The words of field `i`, of which there is a first one.
fn append_some(
    line: &mut Vec<u8>,
    is_data: bool,
    i: u64,
    first: u64,
    others: &[u64],
) -> Result<(), NoMemory>
    ensures { OnOk result (line.new.items ≡ line.old.items ++ words_by is_data i (first ∷ others.now)) }
{
    append_field(line, b" d", i)?;
    line.push(b'=')?;
    append_word(line, is_data, first)?;
    append_more(line, is_data, others)
}

/// The words of field `i`.
fn append_words_by(line: &mut Vec<u8>, is_data: bool, i: u64, words: &[u64]) -> Result<(), NoMemory>
    ensures { OnOk result (line.new.items ≡ line.old.items ++ words_by is_data i words.now) }
{
    match words {
        [] => Ok(()),
        [first, others @ ..] => append_some(line, is_data, i, *first, others),
    }
}

/// The words of a point in field `i`, as ` di=` with commas between. The first `sections` fields are
/// data sections, whose words are fixed-point values; in the others they are whole numbers. Nothing
/// where there are no words.
///
/// Fails only for want of memory.
pub fn append_words(
    line: &mut Vec<u8>,
    sections: u32,
    i: u64,
    words: &[u64],
) -> Result<(), NoMemory>
    ensures { OnOk result (line.new.items ≡ line.old.items ++ words_text sections i words.now) }
{
    append_words_by(line, i < u64::from(sections), i, words)
}
