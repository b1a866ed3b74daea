//! The shortest decimal texts of fixed-point values.

ghost use Rattle.std.specs.Prelude.{◌≡◌, ◌++◌, ◌^◌, ◌<◌, ◌≤◌, if◌then◌else◌, is_ok, length, take, OnOk};
ghost use Rattle.input_defs.specs.line_defs.Numbers.{fixed_text, unsigned_fixed_text, fraction_digits};

use itoa::Buffer;
use plex_base::NoMemory;
use std::alloc::AllocError;

/// Fixed-point values are whole multiples of the 10^10th part of 1.
const UNIT: u128 = 10_000_000_000;

/// The digits after the point of `rest` times 10^-10, without zeros at the end.
fn append_fraction(rest: u64, to: &mut Vec<u8>) -> Result<(), AllocError>
    requires { rest < 10 ^ 10 }
    ensures text { OnOk result (to.new.items ≡ to.old.items ++ fraction_digits 10 rest) }
    ensures front { take (length to.old.items) to.new.items ≡ to.old.items }
{
    let mut rest = rest;
    for place in (0..10).rev() {
        if rest == 0 {
            return Ok(());
        }
        let unit = 10u64.pow(place);
        to.push(b'0' + (rest / unit) as u8)?;
        rest %= unit;
    }
    Ok(())
}

#[tactic(auto, unfolding(input_defs::specs::line_defs::Numbers::unsigned_fixed_text))]
fn append_unsigned(size: u128, to: &mut Vec<u8>) -> Result<(), AllocError>
    ensures text { OnOk result (to.new.items ≡ to.old.items ++ unsigned_fixed_text size) }
    ensures front { take (length to.old.items) to.new.items ≡ to.old.items }
{
    to.extend_from_slice(Buffer::new().format(size / UNIT).as_bytes())?;
    let rest = (size % UNIT) as u64;
    if rest != 0 {
        to.push(b'.')?;
        append_fraction(rest, to)?;
    }
    Ok(())
}

#[tactic(auto, unfolding(input_defs::specs::line_defs::Numbers::fixed_text))]
fn append_fixed(v: i128, to: &mut Vec<u8>) -> Result<(), AllocError>
    ensures text { OnOk result (to.new.items ≡ to.old.items ++ fixed_text v) }
    ensures front { take (length to.old.items) to.new.items ≡ to.old.items }
{
    if v < 0 {
        to.push(b'-')?;
    }
    append_unsigned(v.unsigned_abs(), to)
}

/// Appends the shortest decimal text of `v` times 10^-10: an optional `-`, the whole part and, where
/// the rest is not 0, a point and its digits without zeros at the end. It may ask for memory where
/// `to` has no room; on an `Err` nothing is appended.
pub fn print_fixed(v: i128, to: &mut Vec<u8>) -> Result<(), NoMemory>
    ensures { to.new.items ≡ (if is_ok result then to.old.items ++ fixed_text v else to.old.items) }
{
    let length = to.len();
    let appended = append_fixed(v, to);
    if appended.is_err() {
        to.truncate(length);
    }
    Ok(appended?)
}
