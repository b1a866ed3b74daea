//! Picks: whose turn it is, one after another.
ghost use Rattle.std.specs.Prelude.{◌≡◌, ◌≤◌, ◌==◌, ◌&&◌, ◌∷◌, not, length, get_or, option_map, IfOk};
ghost use Rattle.std.specs.List.{position_or_len};
ghost use Rattle.input_defs.specs.line_defs.Rows.{parts};
ghost use Rattle.input_defs.specs.line_defs.Numbers.{numeral};
ghost use Rattle.headline_defs.specs.Picks.{numerals, picks_of};
ghost use Rattle.plex_job.specs.Pieces.{parts_left};

use plex_base::NoMemory;
use scan::read_uint;
use std::alloc::Global;

/// The most digits of a pick.
const MAX_DIGITS: usize = 9;

/// Whether a zero stands in front of other digits.
fn is_padded(token: &[u8]) -> bool
    ensures { result ≡ (not (length token.now == 1) && (get_or token.now 0 0 == 48)) }
{
    token.len() != 1 && !token.is_empty() && token[0] == b'0'
}

/// The number that one to nine digits write without a zero in front.
fn pick(token: &[u8]) -> Option<u32>
    ensures { result ≡ numeral token.now }
{
    if token.len() > MAX_DIGITS {
        return None;
    }
    if is_padded(token) {
        return None;
    }
    read_uint(token).ok()
}

/// How many bytes stand before the first comma, or in all.
fn end_of_pick(word: &[u8]) -> usize
    ensures value { result ≡ position_or_len (λ b. b == 44) word.now }
    ensures bound { result ≤ length word.now }
{
    let end = word.iter().position(|byte| *byte == b',');
    end.unwrap_or(word.len())
}

/// What stands before the first comma, and what stands after it, if there is one.
fn split_at_comma(word: &[u8]) -> (&[u8], Option<&[u8]>)
    ensures { parts (λ b. b == 44) word.now ≡ result.0.now ∷ parts_left (option_map (λ rest. rest.now) result.1) }
{
    let end = end_of_pick(word);
    if end == word.len() {
        return (word, None);
    }
    (&word[..end], Some(&word[end + 1..]))
}

/// The numbers between single commas.
fn numbers(alloc: Global, word: &[u8]) -> Result<Option<Vec<u32>>, NoMemory>
    ensures { IfOk result (λ found. option_map (λ v. v.items) found ≡ numerals (parts (λ b. b == 44) word.now)) }
{
    let mut picks = Vec::new(alloc);
    let mut left = Some(word);
    while let Some(rest) = left {
        let (token, after) = split_at_comma(rest);
        let Some(next) = pick(token) else {
            return Ok(None);
        };
        picks.push(next)?;
        left = after;
    }
    Ok(Some(picks))
}

/// The picks that a word lists: none by `-`, or numbers with single commas between them.
#[tactic(auto, unfolding(headline_defs::specs::Picks::picks_of))]
pub(crate) fn read_picks(alloc: Global, word: &[u8]) -> Result<Option<Vec<u32>>, NoMemory>
    ensures { IfOk result (λ found. option_map (λ v. v.items) found ≡ picks_of word.now) }
{
    if word == b"-".as_slice() {
        return Ok(Some(Vec::new(alloc)));
    }
    numbers(alloc, word)
}
