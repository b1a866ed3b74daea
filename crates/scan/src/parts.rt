//! The parts of a fixed-point number.

ghost use Rattle.std.specs.Prelude.{◌≡◌, ◌++◌, false, option_map, position, MatchOption};
ghost use Rattle.std.specs.List.{list_all, before_first, after_first};
ghost use Rattle.input_defs.specs.line_defs.Numbers.{is_digit};
ghost use Rattle.input_defs.specs.scan_defs.Numbers.{is_whole, is_mark, is_decimal_point, is_fixed};
ghost use Rattle.scan.specs.Parts.{text_after_first, power_read, HasParts};

use crate::whole::{is_digit, number_up_to_most, split_sign};

/// The number after `e`: whether it has a minus, and its size, or 2^64 - 1 where that is above.
#[derive(Clone, Copy)]
pub struct Power {
    pub minus: bool,
    pub size: u64,
}

/// The parts of a fixed-point number: its sign, the digits before and after the point, and its power of ten.
#[derive(Clone, Copy)]
pub struct Parts<'a> {
    pub minus: bool,
    pub whole: &'a [u8],
    pub fraction: &'a [u8],
    pub power: Power,
}

/// The place of the first `e` or `E`.
fn mark_place(bytes: &[u8]) -> Option<usize>
    ensures { result ≡ position is_mark bytes.now }
{
    bytes.iter().position(|b| *b == b'e' || *b == b'E')
}

/// The place of the first point.
fn point_place(bytes: &[u8]) -> Option<usize>
    ensures { result ≡ position is_decimal_point bytes.now }
{
    bytes.iter().position(|b| *b == b'.')
}

/// What stands before the first `e` or `E`, and what stands after it.
fn split_mark(bytes: &[u8]) -> (&[u8], Option<&[u8]>)
    ensures before { result.0.now ≡ before_first is_mark bytes.now }
    ensures after { option_map (λ r. r.now) result.1 ≡ text_after_first is_mark bytes.now }
{
    match mark_place(bytes) {
        Some(place) => (&bytes[..place], Some(&bytes[place + 1..])),
        None => (bytes, None),
    }
}

/// What stands before the first point, and what stands after it.
fn split_point(bytes: &[u8]) -> (&[u8], &[u8])
    ensures before { result.0.now ≡ before_first is_decimal_point bytes.now }
    ensures after { result.1.now ≡ after_first is_decimal_point bytes.now }
{
    match point_place(bytes) {
        Some(place) => (&bytes[..place], &bytes[place + 1..]),
        None => (bytes, &[]),
    }
}

fn are_digits(bytes: &[u8]) -> bool
    ensures { result ≡ list_all is_digit bytes.now }
{
    bytes.iter().all(|byte| is_digit(*byte))
}

/// Whether there are digits before or after the point, and nothing else.
fn are_some_digits(whole: &[u8], fraction: &[u8]) -> bool
    ensures { result ≡ is_whole (whole.now ++ fraction.now) }
{
    if whole.is_empty() && fraction.is_empty() {
        return false;
    }
    are_digits(whole) && are_digits(fraction)
}

/// The power of ten that is written after `e`, or 0 where there is no `e`.
fn read_power(exponent: Option<&[u8]>) -> Option<Power>
    ensures { result ≡ power_read (option_map (λ text. text.now) exponent.entry) }
{
    let Some(text) = exponent else {
        return Some(Power {
            minus: false,
            size: 0,
        });
    };
    let (minus, digits) = split_sign(text);
    let size = number_up_to_most(digits)?;
    Some(Power { minus, size })
}

/// The parts of a token, where it has the shape of a fixed-point number.
pub fn split_parts(token: &[u8]) -> Option<Parts<'_>>
    ensures { MatchOption result (is_fixed token.now ≡ false) (HasParts token.now) }
{
    let (minus, unsigned) = split_sign(token);
    let (mantissa, exponent) = split_mark(unsigned);
    let (whole, fraction) = split_point(mantissa);
    if !are_some_digits(whole, fraction) {
        return None;
    }
    let Some(power) = read_power(exponent) else {
        return None;
    };
    Some(Parts {
        minus,
        whole,
        fraction,
        power,
    })
}
