//! Numbers by their bytes.
ghost use Rattle.std.specs.Prelude.{◌≡◌, ◌+◌, ◌^◌, ◌<◌, ◌≤◌, min, drop};
ghost use Rattle.sched_records.specs.Numbers.{digit_value, digits_value, unsigned_value, signed, literal_of};

use crate::piece::{is_digit, sign_len};

/// A number, the nearest one of 64 bits where it is `wide`, that is, outside -2^63 to 2^63 - 1.
#[derive(Clone, Copy, Debug, PartialEq, Eq)]
pub struct Literal {
    pub value: i64,
    pub wide: bool,
}

/// One more than the greatest size that a number of 64 bits has.
const BEYOND: u64 = 9_223_372_036_854_775_809;

fn digit_value(b: u8) -> u8
    ensures { result ≡ digit_value b }
{
    if is_digit(b) {
        b - b'0'
    } else if b'a' <= b {
        b - 87
    } else {
        b.saturating_sub(55)
    }
}

/// The value of digits, at most `BEYOND`.
fn digits_value(base: u64, digits: &[u8]) -> u64
    requires low { 1 ≤ base }
    requires high { base ≤ 16 }
    ensures { result ≡ min (digits_value base 0 digits.now) 9223372036854775809 }
{
    let mut value: u64 = 0;
    for digit in digits {
        let next = (value as u128) * (base as u128) + (digit_value(*digit) as u128);
        value = next.min(BEYOND as u128) as u64;
    }
    value
}

fn unsigned_value(digits: &[u8]) -> u64
    ensures { result ≡ min (unsigned_value digits.now) 9223372036854775809 }
{
    if digits.starts_with(b"0x") {
        return digits_value(16, &digits[2..]);
    }
    if digits.starts_with(b"0b") {
        return digits_value(2, &digits[2..]);
    }
    digits_value(10, digits)
}

fn signed(negative: bool, size: u64) -> Literal
    ensures { result ≡ signed negative size }
{
    if negative {
        if size <= 9_223_372_036_854_775_808 {
            let value = (0 - size as i128) as i64;
            return Literal { value, wide: false };
        }
        return Literal {
            value: i64::MIN,
            wide: true,
        };
    }
    if size < 9_223_372_036_854_775_808 {
        return Literal {
            value: size as i64,
            wide: false,
        };
    }
    Literal {
        value: i64::MAX,
        wide: true,
    }
}

/// The number that the bytes of a number token stand for.
pub fn literal_of(bytes: &[u8]) -> Literal
    ensures { result ≡ literal_of bytes.now }
{
    let size = unsigned_value(&bytes[sign_len(bytes)..]);
    signed(bytes.starts_with(b"-"), size)
}
