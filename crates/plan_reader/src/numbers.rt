//! Numbers of plans.

ghost use Rattle.std.specs.Prelude.{◌≡◌, ◌<◌, ◌≤◌, ◌^◌, length, option_map, IfOk, IfSome};
ghost use Rattle.input_defs.specs.line_defs.Rows.{tokens_of};
ghost use Rattle.input_defs.specs.Plans.{plan_numbers};
ghost use Rattle.plan_reader.specs.Reading.{number_of, sole_number};

use crate::tokens::{sole_token, token};
use plex_base::NoMemory;
use scan::read_uint;
use std::alloc::Global;

/// The most digits of a number.
const MAX_DIGITS: usize = 9;

/// The number that one to nine decimal digits write, zeros in front allowed.
pub fn number(token: &[u8]) -> Option<u32>
    ensures value { result ≡ number_of token.now }
    ensures bound { IfSome result (λ n. n < 10 ^ 9) }
{
    if token.len() > MAX_DIGITS {
        return None;
    }
    read_uint(token).ok()
}

/// The number that stands alone in a line.
pub fn sole_number(line: &[u8]) -> Option<u32>
    ensures value { result ≡ sole_number (tokens_of line.now) }
    ensures bound { IfSome result (λ n. n < 10 ^ 9) }
{
    number(sole_token(line)?)
}

/// The numbers of a line, where it has nothing else.
pub fn numbers(alloc: Global, line: &[u8]) -> Result<Option<Vec<u32>>, NoMemory>
    ensures value { IfOk result (λ found. option_map (λ v. v.items) found ≡ plan_numbers (tokens_of line.now)) }
    ensures bound { IfOk result (λ found. IfSome found (λ v. length v.items ≤ length line.now)) }
{
    let mut numbers = Vec::new(alloc);
    let mut rest = line;
    while let Some((first, after)) = token(rest) {
        let Some(next) = number(first) else {
            return Ok(None);
        };
        numbers.push(next)?;
        rest = after;
    }
    Ok(Some(numbers))
}
