//! Integer registers.
ghost use Rattle.std.specs.Prelude.{◌≡◌, ◌<◌};

use std::marker::Model;

/// An integer register, `x0` to `x31`, by its number. `x0` is hard-wired to zero: it is never written,
/// and a read of it waits for no instruction.
#[derive(Clone, Copy, Debug, PartialEq, Eq)]
pub struct Reg {
    number: u8,
}

impl Model for Reg {
    ghost use Rattle.std.specs.Prelude.{ℕ, ◌<◌};

    ghost Value = { ℕ };

    ghost view = { λ s. s.number };

    ghost invariant = { λ s. s.number < 32 };

    ghost inverse = { λ n. record { number = n } };
}

impl Reg {
    /// The register with this number, 0 to 31.
    pub fn new(number: u8) -> Reg
        requires { number < 32 }
        ensures { result ≡ number }
    {
        Reg { number }
    }

    /// Its number, 0 to 31.
    pub fn number(self) -> u8
        ensures value { result ≡ self }
        ensures bound { result < 32 }
    {
        self.number
    }

    /// `zero`, which is x0. In an instruction it also stands where the opcode has no such register.
    pub fn zero() -> Reg
        ensures { result ≡ 0 }
    {
        Reg::new(0)
    }

    /// `ra`, the return address, which is x1.
    pub fn ra() -> Reg
        ensures { result ≡ 1 }
    {
        Reg::new(1)
    }

    /// `t1`, which is x6: the calling convention leaves it free for a tail call's address.
    pub fn t1() -> Reg
        ensures { result ≡ 6 }
    {
        Reg::new(6)
    }
}
