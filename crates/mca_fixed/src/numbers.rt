//! Whole numbers in decimal.
ghost use Rattle.std.specs.Prelude.{◌≡◌, IfOk};
ghost use Rattle.std.specs.Fmt.{signed_decimal};

use crate::memory::NoMemory;
use itoa::Buffer;
use std::alloc::Global;

/// The decimal digits of `n`, with `-` before them where it is negative. No other sign, no blank and no
/// leading zero; 0 is `0`.
pub fn whole(alloc: Global, n: i128) -> Result<Vec<u8>, NoMemory>
    ensures { IfOk result (λ digits. digits.items ≡ signed_decimal n) }
{
    let mut buffer = Buffer::new();
    Ok(Vec::from_slice(alloc, buffer.format(n).as_bytes())?)
}
