//! What a user sees of a machine, by calls that know only that it is one.
use crate::{ClassAnswer, Dual, Limits, Machine, Quad, Tiny, Tuning, UnitOwner, WriteFacts};
use mca_fixed::{MOST_ENTRIES, MOST_REGISTERS};
use rv_isa::Op;
use std::test::Fail;
use unit_sets::UnitMask;

const OPS: [Op; 66] = [
    Op::Lui,
    Op::Auipc,
    Op::Addi,
    Op::Slti,
    Op::Sltiu,
    Op::Xori,
    Op::Ori,
    Op::Andi,
    Op::Slli,
    Op::Srli,
    Op::Srai,
    Op::Add,
    Op::Sub,
    Op::Slt,
    Op::Sltu,
    Op::Xor,
    Op::Or,
    Op::And,
    Op::Sll,
    Op::Srl,
    Op::Sra,
    Op::Jal,
    Op::Jalr,
    Op::Beq,
    Op::Bne,
    Op::Blt,
    Op::Bge,
    Op::Bltu,
    Op::Bgeu,
    Op::Lb,
    Op::Lbu,
    Op::Lh,
    Op::Lhu,
    Op::Lw,
    Op::Sb,
    Op::Sh,
    Op::Sw,
    Op::Fence,
    Op::FenceTso,
    Op::Ecall,
    Op::Ebreak,
    Op::Addiw,
    Op::Slliw,
    Op::Srliw,
    Op::Sraiw,
    Op::Addw,
    Op::Subw,
    Op::Sllw,
    Op::Srlw,
    Op::Sraw,
    Op::Lwu,
    Op::Ld,
    Op::Sd,
    Op::Mul,
    Op::Mulh,
    Op::Mulhsu,
    Op::Mulhu,
    Op::Mulw,
    Op::Div,
    Op::Divu,
    Op::Rem,
    Op::Remu,
    Op::Divw,
    Op::Divuw,
    Op::Remw,
    Op::Remuw,
];

// The numbers of the class that the machine runs an opcode by.
fn facts_of<M: Machine>(machine: &M, op: Op) -> Option<WriteFacts> {
    match machine.class_of(op) {
        ClassAnswer::Class(binding) => Some(machine.class(binding.write)),
        _ => None,
    }
}

// The resource that an opcode uses first, for how long, and its latency.
fn cost_of<M: Machine>(machine: &M, op: Op) -> Option<(u8, u32, u32)> {
    let facts = facts_of(machine, op)?;
    Some((facts.uses[0].resource, facts.uses[0].hold, facts.latency))
}

// Whether each of the opcodes is one micro-op with one use.
fn are_run<M: Machine>(machine: &M, ops: &[Op]) -> bool {
    for op in ops {
        match facts_of(machine, *op) {
            Some(facts) => {
                if facts.uops != 1 || facts.use_count != 1 {
                    return false;
                }
            }
            None => return false,
        }
    }
    true
}

// A resource's name, its buffer, and how many units it has.
fn resource<M: Machine>(machine: &M, r: usize) -> Option<(&str, i32, usize)> {
    if r < machine.resource_count() {
        Some((
            machine.resource_name(r),
            machine.buffer(r),
            machine.mask(r).count(),
        ))
    } else {
        None
    }
}

// Whether the units from 0 on have these owners, by resource and place, and those that follow none.
fn are_owned<M: Machine>(machine: &M, owners: &[(u8, u32)]) -> bool {
    for unit in 0..M::UNITS {
        let want = match owners.get(unit) {
            Some((resource, place)) => Some(UnitOwner {
                resource: *resource,
                place: *place,
            }),
            None => None,
        };
        if machine.owner(unit) != want {
            return false;
        }
    }
    true
}

#[test]
fn a_tuning_replaces_what_it_gives(rt: HostRuntime) -> Result<(), Fail> {
    let plain = Tuning::new(0, 0, 0, 0, true);
    let tiny = Limits {
        width: 1,
        reorder: 8,
        retire: 1,
        loads: 16,
        stores: 16,
        registers: 0,
        no_alias: true,
    };
    assert_eq!(rt; Tiny::make(&plain).limits(), tiny);
    let dual = Limits {
        width: 2,
        reorder: 32,
        retire: 2,
        ..tiny
    };
    assert_eq!(rt; Dual::make(&plain).limits(), dual);
    let quad = Limits {
        width: 4,
        reorder: 128,
        retire: 4,
        ..tiny
    };
    assert_eq!(rt; Quad::make(&plain).limits(), quad);
    let tuned = Limits {
        width: 64,
        loads: MOST_ENTRIES,
        stores: 1,
        registers: MOST_REGISTERS,
        no_alias: false,
        ..quad
    };
    let most = Tuning::new(64, MOST_REGISTERS, MOST_ENTRIES, 1, false);
    assert_eq!(rt; Quad::make(&most).limits(), tuned);
    Ok(())
}

#[test]
fn the_units_stand_in_the_order_of_their_resources(rt: HostRuntime) -> Result<(), Fail> {
    let plain = Tuning::new(0, 0, 0, 0, true);
    let (tiny, dual, quad) = (Tiny::make(&plain), Dual::make(&plain), Quad::make(&plain));
    assert_eq!(rt; resource(&tiny, 0), Some(("ALU", -1, 1)));
    assert_eq!(rt; resource(&dual, 0), Some(("ALU", -1, 2)));
    assert_eq!(rt; resource(&quad, 0), Some(("ALU", -1, 4)));
    assert_eq!(rt; resource(&tiny, 1), Some(("MUL", 8, 1)));
    assert_eq!(rt; resource(&dual, 2), Some(("DIV", 1, 1)));
    assert_eq!(rt; resource(&quad, 3), Some(("MEM", 16, 1)));
    assert_eq!(rt; resource(&quad, 4), None);
    assert!(rt; are_owned(&tiny, &[(0, 0), (1, 0), (2, 0), (3, 0)]));
    assert!(rt; are_owned(&dual, &[(0, 0), (0, 1), (1, 0), (2, 0), (3, 0)]));
    assert!(rt;
        are_owned(
            &quad,
            &[(0, 0), (0, 1), (0, 2), (0, 3), (1, 0), (2, 0), (3, 0)]
        )
    );
    Ok(())
}

#[test]
fn each_opcode_has_a_class(rt: HostRuntime) -> Result<(), Fail> {
    let plain = Tuning::new(0, 0, 0, 0, true);
    let (tiny, dual, quad) = (Tiny::make(&plain), Dual::make(&plain), Quad::make(&plain));
    assert!(rt; are_run(&tiny, &OPS));
    assert!(rt; are_run(&dual, &OPS));
    assert!(rt; are_run(&quad, &OPS));
    assert_eq!(rt; cost_of(&tiny, Op::Addw), Some((0, 1, 1)));
    assert_eq!(rt; cost_of(&tiny, Op::Bne), Some((0, 1, 1)));
    assert_eq!(rt; cost_of(&tiny, Op::Fence), Some((0, 1, 1)));
    assert_eq!(rt; cost_of(&dual, Op::Mul), Some((1, 1, 3)));
    assert_eq!(rt; cost_of(&dual, Op::Mulw), Some((1, 1, 3)));
    assert_eq!(rt; cost_of(&quad, Op::Div), Some((2, 20, 20)));
    assert_eq!(rt; cost_of(&quad, Op::Remuw), Some((2, 20, 20)));
    assert_eq!(rt; cost_of(&quad, Op::Lwu), Some((3, 1, 4)));
    assert_eq!(rt; cost_of(&quad, Op::Sd), Some((3, 1, 1)));
    Ok(())
}
