//! Fixed-point numbers.

ghost use Rattle.std.specs.Prelude.{◌≡◌, ◌+◌, ◌*◌, ◌<◌, ◌≤◌, ◌^◌, length, IsTrue};
ghost use Rattle.std.specs.List.{list_all};
ghost use Rattle.input_defs.specs.line_defs.Numbers.{is_digit};
ghost use Rattle.input_defs.specs.scan_defs.Numbers.{with_sign, fixed_of};
ghost use Rattle.scan.specs.Rounding.{kept_places, magnitude_in_range};

use crate::parts::{Parts, Power, split_parts};
use crate::rounding::kept_value;
use input_defs::scan_defs::NumberFault;

/// How many digits a number keeps in 10^-10, of which `whole` stand before the point; none where
/// that is below 0.
fn kept_places(whole: u64, power: Power) -> Option<u64>
    requires { whole < 2 ^ 63 }
    ensures { result ≡ kept_places whole power }
{
    let places = whole + 10;
    if power.minus {
        places.checked_sub(power.size)
    } else {
        Some(places.saturating_add(power.size))
    }
}

/// The value in 10^-10 without its sign, where it is in range.
#[tactic(auto, unfolding(crate::specs::Rounding::magnitude_in_range))]
fn magnitude(parts: Parts<'_>) -> Option<u64>
    requires length { length parts.whole.now + length parts.fraction.now < 2 ^ 63 }
    requires whole { IsTrue (list_all is_digit parts.whole.now) }
    requires fraction { IsTrue (list_all is_digit parts.fraction.now) }
    ensures { result ≡ magnitude_in_range parts.entry.whole.now parts.entry.fraction.now parts.entry.power }
{
    match kept_places(parts.whole.len() as u64, parts.power) {
        Some(keep) => kept_value(parts.whole, parts.fraction, keep),
        None => Some(0),
    }
}

/// A value with its sign.
fn with_sign(minus: bool, magnitude: u64) -> i64
    requires { magnitude ≤ 9 * 10 ^ 18 }
    ensures { result ≡ with_sign minus magnitude }
{
    let value = magnitude as i64;
    if minus { -value } else { value }
}

/// The value of a token as a fixed-point number of a mesh file (Gmsh manual, MSH format), in units of
/// 10^-10: from -9 * 10^18 to 9 * 10^18 of them.
///
/// A token is an optional sign, then digits with at most one point among, before or after them and
/// at least one digit, then optionally `e` or `E`, an optional sign and at least one digit. Its
/// exact value is rounded half away from zero. An `Err` is `NotNumber` where the token has another
/// shape, else `OutOfRange`. The time is linear in the token's length, whatever its exponent.
pub fn read_fixed(t: &[u8]) -> Result<i64, NumberFault>
    ensures { result ≡ fixed_of t.now }
{
    let Some(parts) = split_parts(t) else {
        return Err(NumberFault::NotNumber);
    };
    match magnitude(parts) {
        Some(magnitude) => Ok(with_sign(parts.minus, magnitude)),
        None => Err(NumberFault::OutOfRange),
    }
}
