//! Machines of a given width, reorder buffer and number of arithmetic units.
ghost use Rattle.std.specs.Prelude.{◌≡◌};
ghost use Rattle.machine_model.specs.Fixed.{AreSizes, fixed_meaning, fixed_write, given_or, one_use};

use crate::answers::{Binding, ClassAnswer, NO_CLASS, UnitOwner};
use crate::facts::{FileShare, Use, WriteFacts};
use crate::limits::Limits;
use crate::machine::Machine;
use crate::tuning::Tuning;
use rv_isa::{Kind, Op, Reg, kind};

/// A machine that dispatches and retires `W` instructions a cycle (1 to 64), with a reorder buffer of `R`
/// micro-ops (1 to 4,096) and `U` units of arithmetic (1 to 60).
///
/// It has four resources, and no groups. Their units are numbered in this order:
///
/// | resource | units | buffer | what uses it | cycles held | latency |
/// |---|---|---|---|---|---|
/// | 0 `ALU` | `U` | -1 | whatever is not named below | 1 | 1 |
/// | 1 `MUL` | 1 | 8 | `mul`, `mulh`, `mulhsu`, `mulhu`, `mulw` | 1 | 3 |
/// | 2 `DIV` | 1 | 1 | `div`, `divu`, `rem`, `remu` and those of 32 bits | 20 | 20 |
/// | 3 `MEM` | 1 | 16 | loads; stores | 1 | 4; 1 |
///
/// Each instruction is one micro-op. The queues have 16 loads and 16 stores; there is no bound on
/// registers, no register file, and no read that comes before the completion of a write.
#[derive(Clone, Copy, Debug)]
pub struct Fixed<const W: usize, const R: usize, const U: usize> {
    // What replaces its own numbers.
    tuning: Tuning,
    ghost sizes: { AreSizes W R U },
}

/// One instruction a cycle, a reorder buffer of 8, one arithmetic unit.
pub type Tiny = Fixed<1, 8, 1>;

/// Two instructions a cycle, a reorder buffer of 32, two arithmetic units.
pub type Dual = Fixed<2, 32, 2>;

/// Four instructions a cycle, a reorder buffer of 128, four arithmetic units.
pub type Quad = Fixed<4, 128, 4>;

impl<const W: usize, const R: usize, const U: usize> Fixed<W, R, U> {
    /// The machine with those of its numbers replaced that `tuning` gives. It takes no memory.
    pub fn make(tuning: &Tuning) -> Self
        requires { AreSizes W R U }
        ensures { ⟦<Fixed<W, R, U> as Machine>⟧.meaning result ≡ fixed_meaning W R U tuning.now }
    {
        Fixed { tuning: *tuning }
    }
}

// What is given, if that is not 0, in place of the machine's own.
fn given_or(given: u32, own: u32) -> u32
    ensures { result ≡ given_or given own }
{
    if given == 0 { own } else { given }
}

// One micro-op that holds a unit of one resource.
fn one_use(resource: u8, hold: u32, latency: u32) -> WriteFacts
    ensures { result ≡ one_use resource hold latency }
{
    let none = Use {
        resource: 0,
        hold: 0,
    };
    WriteFacts {
        latency,
        uops: 1,
        use_count: 1,
        uses: [
            Use { resource, hold },
            none,
            none,
            none,
            none,
            none,
            none,
            none,
        ],
        begins_group: false,
        ends_group: false,
    }
}

// The write class of an opcode.
fn write_of(op: Op) -> u16
    ensures { result ≡ fixed_write op }
{
    if matches!(op, Op::Mul | Op::Mulh | Op::Mulhsu | Op::Mulhu | Op::Mulw) {
        return 1;
    }
    if matches!(
        op,
        Op::Div | Op::Divu | Op::Rem | Op::Remu | Op::Divw | Op::Divuw | Op::Remw | Op::Remuw
    ) {
        return 2;
    }
    match kind(op) {
        Kind::Load => 3,
        Kind::Store => 4,
        _ => 0,
    }
}

impl<const W: usize, const R: usize, const U: usize> Machine for Fixed<W, R, U> {
    ghost use Rattle.machine_model.specs.FixedLaw.{fixed_valid};

    const UNITS: usize = 64;

    ghost UNITS = { 64 };

    type Mask = u64;

    ghost meaning = { λ m. fixed_meaning W R U m.tuning };

    fn limits(&self) -> Limits {
        Limits {
            width: given_or(self.tuning.dispatch, W as u32),
            reorder: R as u32,
            retire: W as u32,
            loads: given_or(self.tuning.loads, 16),
            stores: given_or(self.tuning.stores, 16),
            registers: given_or(self.tuning.registers, 0),
            no_alias: self.tuning.no_alias,
        }
    }

    fn resource_count(&self) -> usize {
        4
    }

    fn buffer(&self, r: usize) -> i32 {
        match r {
            0 => -1,
            1 => 8,
            2 => 1,
            _ => 16,
        }
    }

    fn mask(&self, r: usize) -> u64 {
        match r {
            0 => (1 << U) - 1,
            1 => 1 << U,
            2 => 1 << (U + 1),
            _ => 1 << (U + 2),
        }
    }

    fn resource_name(&self, r: usize) -> &str {
        match r {
            0 => "ALU",
            1 => "MUL",
            2 => "DIV",
            _ => "MEM",
        }
    }

    fn owner(&self, unit: usize) -> Option<UnitOwner> {
        let (resource, place) = if unit < U {
            (0, unit as u32)
        } else if unit == U {
            (1, 0)
        } else if unit == U + 1 {
            (2, 0)
        } else if unit == U + 2 {
            (3, 0)
        } else {
            return None;
        };
        Some(UnitOwner { resource, place })
    }

    fn file_count(&self) -> usize {
        0
    }

    fn file_size(&self, _f: usize) -> u32 {
        0
    }

    fn file_of(&self, _rd: Reg) -> Option<FileShare> {
        None
    }

    fn class_of(&self, op: Op) -> ClassAnswer {
        ClassAnswer::Class(Binding {
            write: write_of(op),
            reads: [NO_CLASS, NO_CLASS],
        })
    }

    fn write_count(&self) -> usize {
        5
    }

    fn read_count(&self) -> usize {
        0
    }

    fn class(&self, k: u16) -> WriteFacts {
        match k {
            0 => one_use(0, 1, 1),
            1 => one_use(1, 1, 3),
            2 => one_use(2, 20, 20),
            3 => one_use(3, 1, 4),
            _ => one_use(3, 1, 1),
        }
    }

    fn advance(&self, _read: u16, _write: u16) -> i32 {
        0
    }

    ghost valid = { λ m. fixed_valid W R U m.sizes m.tuning };
}
