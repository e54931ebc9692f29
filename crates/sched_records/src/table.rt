//! Reading a table.
ghost use Rattle.std.specs.Prelude.{◌≡◌, ℕ, List, ◌≤◌, length, map, true, IfOk, IfErr};
ghost use Rattle.sched_records.specs.Gives.{UnlessMemory};
ghost use Rattle.sched_records.specs.Table.{HasRecords, HasFault};
ghost use Rattle.sched_records.specs.Members.{members};
ghost use Rattle.sched_records.specs.Order.{in_byte_order};
ghost use Rattle.sched_records.specs.declared.class.Class.{Class as ClassOf};
ghost use Rattle.sched_records.specs.declared.members.Given.{Given as GivenOf};
ghost use Rattle.sched_records.specs.declared.records.Record.{Record as RecordOf};
ghost use Rattle.mca_fixed.specs.declared.limits.TheConstants.{MOST_TEXT_BYTES};
ghost use Rattle.sched_records.specs.declared.limits.TheConstants.{MOST_RECORDS};
ghost use Rattle.sched_records.specs.declared.refusal.TableKind.TheVariants.{Memory};
ghost use Rattle.sched_records.specs.declared.refusal.TableRefusal.{TableRefusal as RefusalOf};

use crate::items::phrase;
use crate::known::{Doing, Known, may_end};
use crate::records::Records;
use crate::refusal::TableRefusal;
use crate::tokens::Tokens;
use std::alloc::Global;

/// Reads the records of a flat scheduling table of at most `MOST_TEXT_BYTES`: records of the classes of
/// LLVM's TargetSchedule.td, and `let` scopes around them, with no other part of TableGen. A text that
/// has a fault has no records, and its first fault is answered with the line of its token.
pub fn read_table(alloc: Global, text: &[u8]) -> Result<Records, TableRefusal>
    requires { length text.now ≤ MOST_TEXT_BYTES }
    ensures records { IfOk result (λ records. HasRecords text.now records) }
    ensures few { IfOk result (λ records. length records ≤ MOST_RECORDS) }
    ensures fault { IfErr result (λ f. UnlessMemory f.kind (HasFault text.now f)) }
    ensures no_line { IfErr result (λ f. f.kind ≡ Memory → f.line ≡ 0) }
{
    let mut tokens = Tokens::at(text, 1);
    let mut known = Known::new(alloc);
    let mut doing = Doing::Item;
    'phrases: while !may_end(&known, &doing, &tokens) {
        let step = phrase(alloc, &known, doing, &mut tokens)?;
        doing = known.take(alloc, step)?;
    }
    Ok(known.into_records())
}

/// Whatever a body and the scopes around it give, the members stand in the byte order of their names,
/// each name once.
pub fn members_in_order()
    ensures { (c : ClassOf) (layers : List (List GivenOf)) → in_byte_order (map (λ m. m.name) (members c layers)) ≡ true }
{}

/// A text has at most one answer: records, or a first fault.
pub fn one_answer()
    ensures records { (text : List ℕ) (a b : List RecordOf) → HasRecords text a → HasRecords text b → a ≡ b }
    ensures fault { (text : List ℕ) (f g : RefusalOf) → HasFault text f → HasFault text g → f ≡ g }
    ensures not_both { (text : List ℕ) (a : List RecordOf) (f : RefusalOf) → HasRecords text a → HasFault text f → ⊥ }
{}

/// A text has at most `MOST_RECORDS` records.
pub fn few_records()
    ensures { (text : List ℕ) (records : List RecordOf) → HasRecords text records → length records ≤ MOST_RECORDS }
{}
