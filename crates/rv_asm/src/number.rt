//! Numbers as operands.
ghost use Rattle.std.specs.Prelude.{◌≡◌, ◌≤◌, ◌^◌, ◌<◌, ◌≤ℤ◌, length, pos, neg_ℤ, true, IfSome};
ghost use Rattle.std.specs.Option.{option_map};
ghost use Rattle.rv_asm.specs.Numbers.{digit_of, value_from, digits_at, is_hexadecimal, is_binary, size_at, number_at};

use crate::class::begins_with;
use crate::pieces::begins;

/// What a number beyond 64 bits counts as.
const BEYOND: u128 = 1 << 64;

fn digit_of(b: u8) -> u128
    ensures value { result ≡ digit_of b }
    ensures small { result ≤ 16 }
{
    match b {
        b'0'..=b'9' => (b - b'0') as u128,
        b'a'..=b'f' => (b - 87) as u128,
        b'A'..=b'F' => (b - 55) as u128,
        _ => 16,
    }
}

/// The number that digits make; 2^64 where it is beyond 64 bits.
fn value_of(base: u128, text: &[u8]) -> Option<u128>
    requires { base ≤ 16 }
    ensures value { result ≡ value_from base 0 text.now }
    ensures high { IfSome result (λ n. n ≤ 2 ^ 64) }
{
    let mut value = 0;
    for b in text {
        let digit = digit_of(*b);
        if digit >= base {
            return None;
        }
        value = (base * value + digit).min(BEYOND);
    }
    Some(value)
}

fn digits_at(base: u128, text: &[u8]) -> Option<u128>
    requires { base ≤ 16 }
    ensures value { result ≡ digits_at base text.now }
    ensures high { IfSome result (λ n. n ≤ 2 ^ 64) }
{
    if text.is_empty() {
        return None;
    }
    value_of(base, text)
}

fn is_hexadecimal(text: &[u8]) -> bool
    ensures test { result ≡ is_hexadecimal text.now }
    ensures long { result ≡ true → 2 ≤ length text.now }
{
    begins(b'0', b'x', text) || begins(b'0', b'X', text)
}

fn is_binary(text: &[u8]) -> bool
    ensures test { result ≡ is_binary text.now }
    ensures long { result ≡ true → 2 ≤ length text.now }
{
    begins(b'0', b'b', text) || begins(b'0', b'B', text)
}

/// A number without its sign.
fn size_at(text: &[u8]) -> Option<u128>
    ensures value { result ≡ size_at text.now }
    ensures high { IfSome result (λ n. n ≤ 2 ^ 64) }
{
    if is_hexadecimal(text) {
        return digits_at(16, &text[2..]);
    }
    if is_binary(text) {
        return digits_at(2, &text[2..]);
    }
    if begins_with(b'0', text) {
        return digits_at(8, text);
    }
    digits_at(10, text)
}

/// A number without its sign, as a signed one.
fn unsigned(text: &[u8]) -> Option<i128>
    ensures value { result ≡ option_map pos (size_at text.now) }
    ensures high { IfSome result (λ n. n ≤ℤ pos (2 ^ 64)) }
    ensures low { IfSome result (λ n. pos 0 ≤ℤ n) }
{
    match size_at(text) {
        Some(size) => Some(size as i128),
        None => None,
    }
}

fn negative(text: &[u8]) -> Option<i128>
    ensures value { result ≡ option_map (λ n. neg_ℤ (pos n)) (size_at text.now) }
    ensures high { IfSome result (λ n. n ≤ℤ pos 0) }
    ensures low { IfSome result (λ n. neg_ℤ (pos (2 ^ 64)) ≤ℤ n) }
{
    match size_at(text) {
        Some(size) => Some(-(size as i128)),
        None => None,
    }
}

/// The number that the text is: a sign or none, and digits behind `0x`, `0b`, `0` or nothing. A number
/// beyond 64 bits is given as 2^64, with its sign.
pub fn number_at(text: &[u8]) -> Option<i128>
    ensures value { result ≡ number_at text.now }
    ensures high { IfSome result (λ n. n ≤ℤ pos (2 ^ 64)) }
    ensures low { IfSome result (λ n. neg_ℤ (pos (2 ^ 64)) ≤ℤ n) }
{
    if begins_with(b'-', text) {
        return negative(&text[1..]);
    }
    if begins_with(b'+', text) {
        return unsigned(&text[1..]);
    }
    unsigned(text)
}
