//! Numbers that tokens write, and the shortest texts of fixed-point values.

use scan::NumberFault::{self, NotNumber, OutOfRange};
use scan::{print_fixed, read_fixed, read_int, read_uint};
use std::test::Fail;

/// Tokens, and what they are as fixed-point numbers in 10^-10.
const FIXED: [(&[u8], Result<i64, NumberFault>); 19] = [
    (b"0.00000000005", Ok(1)),
    (b"-0.00000000005", Ok(-1)),
    (b"0.00000000004999", Ok(0)),
    (b".5", Ok(5_000_000_000)),
    (b"5.", Ok(50_000_000_000)),
    (b"-0", Ok(0)),
    (b"6.123233995736766e-17", Ok(0)),
    (b"9e8", Ok(9_000_000_000_000_000_000)),
    (b"900000000.00000000004", Ok(9_000_000_000_000_000_000)),
    (b"900000000.0000000001", Err(OutOfRange)),
    (b"1e999999999999", Err(OutOfRange)),
    (b"1e99999999999999999999999", Err(OutOfRange)),
    (b"0e999999999999", Ok(0)),
    (b"1e-400", Ok(0)),
    (b"1e-99999999999999999999999", Ok(0)),
    (b"e5", Err(NotNumber)),
    (b"1,5", Err(NotNumber)),
    (b"+", Err(NotNumber)),
    (b"nan", Err(NotNumber)),
];

#[test]
fn reads_fixed_numbers(rt: HostRuntime) {
    for (token, answer) in &FIXED {
        assert_eq!(rt; read_fixed(token), *answer);
    }
}

/// Tokens with exponents of 2^63 and more, on either side, and what they are in 10^-10. A reader that
/// took a turn for each power of ten would not end.
const FAR: [(&[u8], Result<i64, NumberFault>); 9] = [
    (b"0e99999999999999999999", Ok(0)),
    (b"-0e18446744073709551615", Ok(0)),
    (b"0.000E+18446744073709551614", Ok(0)),
    (b"000000000000000000000e9223372036854775808", Ok(0)),
    (b"0e-99999999999999999999", Ok(0)),
    (b"1e99999999999999999999", Err(OutOfRange)),
    (
        b"0.00000000000000000001e18446744073709551615",
        Err(OutOfRange),
    ),
    (b"1e-99999999999999999999", Ok(0)),
    (b"99999999999999999999e-18446744073709551615", Ok(0)),
];

#[test]
fn takes_no_turn_for_each_power_of_ten(rt: HostRuntime) {
    for (token, answer) in &FAR {
        assert_eq!(rt; read_fixed(token), *answer);
    }
}

/// Tokens, and what they are as unsigned and as signed numbers.
const WHOLE: [(&[u8], Result<u32, NumberFault>, Result<i32, NumberFault>); 8] = [
    (b"007", Ok(7), Ok(7)),
    (b"4294967295", Ok(u32::MAX), Err(OutOfRange)),
    (b"4294967296", Err(OutOfRange), Err(OutOfRange)),
    (b"99999999999999999999999", Err(OutOfRange), Err(OutOfRange)),
    (b"-2147483648", Err(NotNumber), Ok(i32::MIN)),
    (b"+2147483647", Err(NotNumber), Ok(i32::MAX)),
    (b"-", Err(NotNumber), Err(NotNumber)),
    (b"1e3", Err(NotNumber), Err(NotNumber)),
];

#[test]
fn reads_whole_numbers(rt: HostRuntime) {
    for (token, unsigned, signed) in &WHOLE {
        assert_eq!(rt; read_uint(token), *unsigned);
        assert_eq!(rt; read_int(token), *signed);
    }
}

#[test]
fn reads_a_hundred_thousand_digits(rt: HostRuntime) -> Result<(), Fail> {
    let mut token = vec![in rt.alloc(); b'0'; 100_000]?;
    assert_eq!(rt; read_fixed(&token), Ok(0));
    token.push(b'7')?;
    assert_eq!(rt; read_fixed(&token), Ok(70_000_000_000));
    token.push(b'.')?;
    token.extend_from_slice(b"00000000005")?;
    assert_eq!(rt; read_fixed(&token), Ok(70_000_000_001));
    Ok(())
}

/// Values in 10^-10, and their texts.
const PRINTED: [(i128, &[u8]); 6] = [
    (1, b"0.0000000001"),
    (0, b"0"),
    (-2_500_000_000, b"-0.25"),
    (10_000_000_000, b"1"),
    (i128::MAX, b"17014118346046923173168730371.5884105727"),
    (i128::MIN, b"-17014118346046923173168730371.5884105728"),
];

#[test]
fn prints_shortest_texts(rt: HostRuntime) -> Result<(), Fail> {
    for (value, text) in &PRINTED {
        let mut to = Vec::from_slice(rt.alloc(), b"x")?;
        assert_eq!(rt; print_fixed(*value, &mut to), Ok(()));
        assert_eq!(rt; &to[1..], *text);
    }
    Ok(())
}
