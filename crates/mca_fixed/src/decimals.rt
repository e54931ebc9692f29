//! Fractions with a fixed number of decimals.
ghost use Rattle.std.specs.Prelude.{◌≡◌, ◌≤◌, ◌+◌, ◌%◌, ◌^◌, IfOk};
ghost use Rattle.mca_fixed.specs.Decimals.{fixed};

use crate::memory::NoMemory;
use itoa::Buffer;
use std::alloc::Global;

/// A fraction of whole numbers.
#[derive(Clone, Copy, Debug, PartialEq, Eq)]
pub struct Frac {
    /// The numerator.
    pub num: u128,
    /// The denominator. A fraction that is printed has 1 or more.
    pub den: u128,
}

/// `f` in decimal with exactly `places` decimals, 1 or 2, rounded half up: 1/8 with two of them is `0.13`.
/// Its numerator and its denominator are at most 2^100.
pub fn decimal(alloc: Global, f: Frac, places: u32) -> Result<Vec<u8>, NoMemory>
    requires den { 1 ≤ f.den }
    requires den_high { f.den ≤ 2 ^ 100 }
    requires num_high { f.num ≤ 2 ^ 100 }
    requires some { 1 ≤ places }
    requires few { places ≤ 2 }
    ensures { IfOk result (λ text. text.items ≡ fixed f.num f.den places) }
{
    let scale = if places == 1 { 10 } else { 100 };
    let units = (2 * (f.num * scale) + f.den) / (2 * f.den);
    let mut buffer = Buffer::new();
    let mut text = Vec::from_slice(alloc, buffer.format(units / scale).as_bytes())?;
    text.push(b'.')?;
    if places == 2 {
        text.push(last_digit(units / 10))?;
    }
    text.push(last_digit(units))?;
    Ok(text)
}

/// The last decimal digit of a number, as a byte.
fn last_digit(n: u128) -> u8
    ensures { result ≡ 48 + n % 10 }
{
    b'0' + (n % 10) as u8
}
