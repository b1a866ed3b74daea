//! Decimal digits as a whole number, cut off at a place and rounded.

ghost use Rattle.std.specs.Prelude.{◌≡◌, ◌+◌, ◌*◌, ◌-◌, ◌^◌, ◌<◌, ◌≤◌, ◌++◌, length, map, take, get_or, IsTrue};
ghost use Rattle.std.specs.List.{list_all};
ghost use Rattle.std.specs.Int.Digits.{number_from_digits_after};
ghost use Rattle.input_defs.specs.line_defs.Numbers.{is_digit};
ghost use Rattle.scan.specs.Rounding.{in_range, kept_value};

/// The greatest absolute value of a fixed-point number, in 10^-10.
const MOST: u64 = 9_000_000_000_000_000_000;

/// How many zeros a number in range can have after a digit that is not 0.
const MOST_ZEROS: u64 = 18;

/// A number with these digits after its own, where that is in range.
fn with_digits(number: u64, digits: &[u8]) -> Option<u64>
    requires range { number ≤ 9 * 10 ^ 18 }
    requires digits { IsTrue (list_all is_digit digits.now) }
    ensures { result ≡ in_range (number_from_digits_after 10 number (map (λ b. b - 48) digits.now)) }
{
    let mut number = number;
    for digit in digits {
        if number > MOST / 10 {
            return None;
        }
        number = number * 10 + u64::from(*digit - b'0');
    }
    if number <= MOST { Some(number) } else { None }
}

/// A number with so many zeros after its digits, where that is in range. The zeros are not gone over:
/// an exponent may ask for 2^64 of them.
fn with_zeros(number: u64, count: u64) -> Option<u64>
    ensures { result ≡ in_range (number * 10 ^ count) }
{
    if number == 0 {
        return Some(0);
    }
    if count > MOST_ZEROS {
        return None;
    }
    let product = number.checked_mul(10u64.pow(count as u32))?;
    if product <= MOST { Some(product) } else { None }
}

/// The first digits, at most so many.
fn first_digits(digits: &[u8], count: u64) -> &[u8]
    ensures { result.now ≡ take count digits.now }
{
    if count < digits.len() as u64 {
        &digits[..count as usize]
    } else {
        digits
    }
}

/// The digit at a place of `whole` and then `fraction`, or `0` after them.
fn digit_at(whole: &[u8], fraction: &[u8], place: u64) -> u8
    ensures { result ≡ get_or (whole.now ++ fraction.now) place 48 }
{
    let in_whole = whole.len() as u64;
    if place < in_whole {
        whole[place as usize]
    } else if place - in_whole < fraction.len() as u64 {
        fraction[(place - in_whole) as usize]
    } else {
        b'0'
    }
}

/// The first `keep` digits of `whole` and then `fraction` as a number, rounded by the digit after
/// them; zeros stand after all digits. None where that is out of range.
pub fn kept_value(whole: &[u8], fraction: &[u8], keep: u64) -> Option<u64>
    requires length { length whole.now + length fraction.now < 2 ^ 64 }
    requires whole { IsTrue (list_all is_digit whole.now) }
    requires fraction { IsTrue (list_all is_digit fraction.now) }
    ensures { result ≡ in_range (kept_value (whole.now ++ fraction.now) keep) }
{
    let in_whole = whole.len() as u64;
    let digits = in_whole + fraction.len() as u64;
    let kept = with_digits(0, first_digits(whole, keep))?;
    let kept = with_digits(kept, first_digits(fraction, keep.saturating_sub(in_whole)))?;
    let kept = with_zeros(kept, keep.saturating_sub(digits))?;
    if digit_at(whole, fraction, keep) < b'5' {
        return Some(kept);
    }
    if kept < MOST { Some(kept + 1) } else { None }
}
