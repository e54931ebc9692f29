//! What holds of opcodes and spellings, whatever the program does.
ghost use Rattle.std.specs.Prelude.{◌≡◌, ℕ, List, Some, slice_get, true};
ghost use Rattle.rv_isa.specs.declared.instr.Instr.{Instr as Instruction};
ghost use Rattle.rv_isa.specs.declared.op.Op.{Op as Opcode};
ghost use Rattle.rv_isa.specs.declared.op.TheConstants.Op.{ALL};
ghost use Rattle.rv_isa.specs.Instruction.{is_lawful};
ghost use Rattle.rv_isa.specs.Opcodes.{op_named, op_number, opcodes, facts_of};
ghost use Rattle.rv_isa.specs.Spelling.{spelling};
ghost use Rattle.rv_isa.specs.Symbol.{HasSymbolText, IsSame};

/// Two lawful instructions with one spelling are the same instruction, but for the numbers of their symbols:
/// these have the same text.
pub fn one_instruction_a_spelling()
    ensures { (names others : List (List ℕ)) (i j : Instruction) → is_lawful i ≡ true → is_lawful j ≡ true
        → HasSymbolText names i.imm → HasSymbolText others j.imm → spelling i names ≡ spelling j others → IsSame names others i j }
{}

/// Each opcode stands in the list of the opcodes at its number alone, and is the one of its mnemonic.
pub fn each_opcode_once()
    ensures all { ALL ≡ opcodes }
    ensures place { (op : Opcode) → slice_get opcodes (op_number op) ≡ Some op }
    ensures own { (op : Opcode) → op_named (facts_of op).mnemonic ≡ Some op }
{}
