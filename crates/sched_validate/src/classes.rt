//! The scheduling classes of the opcodes on a table's machine.
ghost use Rattle.std.specs.Prelude.{◌≡◌, ◌<◌, ◌^◌, map, slice_get, length, nat_eq, find, All, IfSome, IfOk};
ghost use Rattle.std.specs.Cmp.Lexicographic.{pointwise};
ghost use Rattle.std.specs.List.{list_any};
ghost use Rattle.std.specs.Option.{option_copied};
ghost use Rattle.rv_isa.specs.Opcodes.{opcodes, same_op};
ghost use Rattle.sched_validate.specs.Classes.{read_class, is_unsupported, answer_by, answer_of, rewrite_for, class_for, IsSmallRewrite, IsSmallDefaults};
ghost use Rattle.sched_validate.specs.Places.{IsPlace};

use machine_model::{Binding, ClassAnswer, NO_CLASS};
use mca_fixed::{Items, NoMemory};
use rv_isa::{Op, mnemonic};
use sched_resolve::{Defaults, Rewrite, Write, all_opcodes};
use std::alloc::Global;

/// The class of a read; `NO_CLASS` for none.
fn read_class(read: Option<usize>) -> u16
    requires { read_class read < 2 ^ 16 }
    ensures { result ≡ read_class read }
{
    match read {
        Some(number) => number as u16,
        None => NO_CLASS,
    }
}

fn is_unsupported(writes: &[&Write], write: usize) -> bool
    ensures { result ≡ is_unsupported (slice_get (map (λ w. w.now) writes.now) write) }
{
    match writes.get(write) {
        Some(write) => write.unsupported,
        None => false,
    }
}

/// The answer by the write and the reads of an opcode.
fn answer_by(
    writes: &[&Write],
    write: Option<usize>,
    rs1: Option<usize>,
    rs2: Option<usize>,
) -> ClassAnswer
    requires write { IsPlace (2 ^ 16) write }
    requires rs1 { read_class rs1 < 2 ^ 16 }
    requires rs2 { read_class rs2 < 2 ^ 16 }
    ensures { result ≡ answer_by (map (λ w. w.now) writes.now) write rs1 rs2 }
{
    let Some(number) = write else {
        return ClassAnswer::Missing;
    };
    if is_unsupported(writes, number) {
        return ClassAnswer::Unsupported;
    }
    ClassAnswer::Class(Binding {
        write: number as u16,
        reads: [read_class(rs1), read_class(rs2)],
    })
}

fn same_op(one: Op, other: Op) -> bool
    ensures { result ≡ same_op one other }
{
    mnemonic(one).as_bytes() == mnemonic(other).as_bytes()
}

fn names(rewrite: &Rewrite, op: Op) -> bool
    ensures { result ≡ list_any (same_op op) rewrite.now.ops }
{
    for other in rewrite.ops.as_slice() {
        if same_op(op, *other) {
            return true;
        }
    }
    false
}

/// The first `InstRW` that names an opcode.
fn rewrite_for<'e>(rewrites: &[&'e Rewrite], op: Op) -> Option<&'e Rewrite>
    requires { All (λ r. IsSmallRewrite r.now) rewrites.now }
    ensures first { option_copied result ≡ rewrite_for (map (λ r. r.now) rewrites.entry.now) op }
    ensures small { IfSome result (λ r. IsSmallRewrite r.now) }
{
    for rewrite in rewrites {
        if names(rewrite, op) {
            return Some(*rewrite);
        }
    }
    None
}

/// The answer for an opcode: by the `InstRW` that names it, else by its default classes.
fn class_for(writes: &[&Write], rewrites: &[&Rewrite], defaults: &[Defaults], op: Op) -> ClassAnswer
    requires rewrites { All (λ r. IsSmallRewrite r.now) rewrites.now }
    requires defaults { All IsSmallDefaults defaults.now }
    requires each { length defaults.now ≡ 66 }
    ensures { result ≡ class_for (map (λ w. w.now) writes.now) (map (λ r. r.now) rewrites.now)
        defaults.now op }
{
    let own = defaults[op.number()];
    match rewrite_for(rewrites, op) {
        Some(rewrite) => answer_by(writes, rewrite.write, rewrite.rs1, rewrite.rs2),
        None => answer_by(writes, own.write, own.rs1, own.rs2),
    }
}

/// The answers for all opcodes, in their order.
pub(crate) fn all_classes(
    alloc: Global,
    writes: &[&Write],
    rewrites: &[&Rewrite],
    defaults: &[Defaults],
) -> Result<Items<ClassAnswer>, NoMemory>
    requires rewrites { All (λ r. IsSmallRewrite r.now) rewrites.now }
    requires defaults { All IsSmallDefaults defaults.now }
    requires each { length defaults.now ≡ 66 }
    ensures { IfOk result (λ classes. classes ≡ map (class_for (map (λ w. w.now) writes.now)
        (map (λ r. r.now) rewrites.now) defaults.now) opcodes) }
{
    let ops = all_opcodes();
    let mut classes = Vec::with_capacity(alloc, ops.len())?;
    for op in ops {
        classes.push(class_for(writes, rewrites, defaults, *op))?;
    }
    Ok(Items::from_vec(classes))
}
