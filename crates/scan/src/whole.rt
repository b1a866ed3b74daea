//! Whole numbers.

ghost use Rattle.std.specs.Prelude.{◌≡◌, ◌-◌, ◌^◌, min, if◌then◌else◌, Some, None};
ghost use Rattle.input_defs.specs.line_defs.Numbers.{is_digit, number_of_digits};
ghost use Rattle.input_defs.specs.scan_defs.Numbers.{is_whole, is_minus, without_sign, uint_of, int_of};

use input_defs::scan_defs::NumberFault;

/// Whether a byte is a decimal digit.
pub fn is_digit(byte: u8) -> bool
    ensures { result ≡ is_digit byte }
{
    byte.is_ascii_digit()
}

/// The number that one or more digits write, or 2^64 - 1 where it is above.
pub fn number_up_to_most(digits: &[u8]) -> Option<u64>
    ensures { result ≡ (if is_whole digits.now then Some (min (number_of_digits digits.now) (2 ^ 64 - 1)) else None) }
{
    if digits.is_empty() {
        return None;
    }
    let mut number = 0u64;
    for digit in digits {
        if !is_digit(*digit) {
            return None;
        }
        number = number
            .saturating_mul(10)
            .saturating_add(u64::from(*digit - b'0'));
    }
    Some(number)
}

/// Whether a token begins with `-`, and what stands after a `-` or `+`.
pub fn split_sign(token: &[u8]) -> (bool, &[u8])
    ensures minus { result.0 ≡ is_minus token.now }
    ensures rest { result.1.now ≡ without_sign token.now }
{
    match token {
        [b'-', rest @ ..] => (true, rest),
        [b'+', rest @ ..] => (false, rest),
        _ => (false, token),
    }
}

/// The value of a token as an unsigned number of a mesh file (Gmsh manual, MSH format): one or more
/// decimal digits, zeros in front allowed, at most 4,294,967,295.
///
/// An `Err` is `NotNumber` where the token has another shape, else `OutOfRange`.
#[tactic(auto, unfolding(input_defs::specs::scan_defs::Numbers::uint_of))]
pub fn read_uint(t: &[u8]) -> Result<u32, NumberFault>
    ensures { result ≡ uint_of t.now }
{
    let number = number_up_to_most(t).ok_or(NumberFault::NotNumber)?;
    if number > u64::from(u32::MAX) {
        return Err(NumberFault::OutOfRange);
    }
    Ok(number as u32)
}

/// The value of a token as a signed number of a mesh file (Gmsh manual, MSH format): decimal digits
/// with or without one `-` or `+` in front, from -2,147,483,648 to 2,147,483,647.
///
/// An `Err` is `NotNumber` where the token has another shape, else `OutOfRange`.
#[tactic(auto, unfolding(input_defs::specs::scan_defs::Numbers::int_of))]
pub fn read_int(t: &[u8]) -> Result<i32, NumberFault>
    ensures { result ≡ int_of t.now }
{
    let (minus, digits) = split_sign(t);
    let number = number_up_to_most(digits).ok_or(NumberFault::NotNumber)?;
    let most = if minus { 2_147_483_648 } else { 2_147_483_647 };
    if number > most {
        return Err(NumberFault::OutOfRange);
    }
    let size = number as i64;
    Ok(if minus { -size as i32 } else { size as i32 })
}
