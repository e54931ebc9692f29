//! The names of opcodes in tables.
ghost use Rattle.std.specs.Prelude.{◌≡◌, nat_eq, map, find, IfOk};
ghost use Rattle.std.specs.Cmp.Lexicographic.{pointwise};
ghost use Rattle.std.specs.List.{filter_map};
ghost use Rattle.rv_isa.specs.Opcodes.{opcodes};
ghost use Rattle.sched_resolve.specs.Opcodes.{in_table, table_name, op_in_table};

use mca_fixed::{Items, Name, NoMemory};
use rv_isa::{Op, mnemonic};
use std::alloc::Global;

fn in_table(byte: u8) -> u8
    ensures { result ≡ in_table byte }
{
    if 97 <= byte && byte <= 122 {
        byte - 32
    } else if byte == 46 {
        95
    } else {
        byte
    }
}

fn is_written(name: &[u8], mnemonic: &[u8]) -> bool
    ensures { result ≡ pointwise nat_eq name.now (map in_table mnemonic.now) }
{
    let mut rest = mnemonic;
    for byte in name {
        match rest.split_first() {
            None => return false,
            Some((first, behind)) => {
                if *byte != in_table(*first) {
                    return false;
                }
                rest = behind;
            }
        }
    }
    rest.is_empty()
}

fn is_named(name: &[u8], op: Op) -> bool
    ensures { result ≡ pointwise nat_eq name.now (table_name op) }
{
    is_written(name, mnemonic(op).as_bytes())
}

fn op_among(ops: &[Op], name: &[u8]) -> Option<Op>
    ensures { result ≡ find (λ o. pointwise nat_eq name.now (table_name o)) ops.now }
{
    for op in ops {
        if is_named(name, *op) {
            return Some(*op);
        }
    }
    None
}

fn op_in_table(name: &[u8]) -> Option<Op>
    ensures { result ≡ op_in_table name.now }
{
    op_among(all_opcodes(), name)
}

/// The opcodes of RV64IM among the names.
pub fn ops_named(alloc: Global, names: &[Name]) -> Result<Items<Op>, NoMemory>
    ensures { IfOk result (λ ops. ops ≡ filter_map op_in_table names.now) }
{
    let mut found = Vec::new(alloc);
    for name in names {
        if let Some(op) = op_in_table(name.as_bytes()) {
            found.push(op)?;
        }
    }
    Ok(Items::from_vec(found))
}

/// The opcodes of RV64IM, in their order.
pub fn all_opcodes() -> &'static [Op]
    ensures { result.now ≡ opcodes }
{
    &Op::ALL
}
