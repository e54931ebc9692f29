//! The tool as one call: the words of a command line, a shelf of files and two sinks in; the report
//! or one line of error, and a status, out.
//!
//! words → options (`options`) → program and its regions (`files`, `program`) → machine (`machine`,
//! `files`) → bodies of all regions and their sizes (`bodies`) → report of each region with its own
//! run (`report`) → bytes (`tool`). Each step but the last stops with a `stop`. What a call leaves:
//! specs/Outcome; why an input is refused: specs/Refusal; what a report has: specs/Whole and
//! specs/Report; how many turns a machine makes: specs/Turns. With `-load` the program is made from
//! a number (`generator`; specs/Load), and its report has a form of its own (`load`;
//! specs/LoadReport).
#![tactic(auto)]

ghost use Rattle.std.specs.Prelude.{◌≡◌, ℕ, List, Some, None};
ghost use Rattle.machine_model.specs.Meaning.{MachineMeaning};
ghost use Rattle.mca_run.specs.Asked.{IsAsked, IsLoadAsked, IsWordFault};
ghost use Rattle.mca_run.specs.Machines.{fixed_of};
ghost use Rattle.mca_run.specs.Refusal.{Contents, IsTable, IsAsmRefusal, IsTableRefusal, IsRefusal};
ghost use Rattle.mca_run.specs.Report.{IsReport};
ghost use Rattle.mca_run.specs.Turns.{IsSetUp};
ghost use Rattle.mca_run.specs.declared.program.Program.{Program as ProgramOf};
ghost use Rattle.mca_run.specs.declared.status.Status.{Status as StatusOf};
ghost use Rattle.mca_words.specs.declared.fault.WordFault.{WordFault as WordFaultOf};
ghost use Rattle.mca_words.specs.declared.options.Options.{Options as OptionsOf};
ghost use Rattle.sched_checks.specs.Illness.{illness_of};
ghost use Rattle.sched_checks.specs.declared.illness.TableIllness.{TableIllness as IllnessOf};
ghost use Rattle.sched_records.specs.declared.records.Record.{Record as RecordOf};
ghost use Rattle.sched_resolve.specs.Entries.{entries_of};

mod bodies;
mod files;
mod generator;
mod load;
mod machine;
mod options;
mod program;
mod report;
mod status;
mod stop;
mod tool;

pub use generator::{generate, worked_program};
pub use sched_checks::IllKind;
pub use status::{LimitKind, MachineRefusal, OpKind, Status};
pub use tool::analyse;

/// Words and contents have at most one answer: one refusal, or one report, and never both.
pub fn one_answer()
    ensures refusal { (words : List (List ℕ)) (contents : Contents) (s t : StatusOf) →
        IsRefusal words contents s → IsRefusal words contents t → s ≡ t }
    ensures report { (words : List (List ℕ)) (contents : Contents) (a b : List ℕ) →
        IsReport words contents a → IsReport words contents b → a ≡ b }
    ensures not_both { (words : List (List ℕ)) (contents : Contents) (s : StatusOf) (a : List ℕ) →
        IsRefusal words contents s → IsReport words contents a → ⊥ }
{}

/// Nothing is set up, and so no turn is made, where the words, the assembly or the table are
/// refused, or a named file is not there.
pub fn nothing_set_up()
    ensures words { (words : List (List ℕ)) (contents : Contents) (o : OptionsOf) (p : ProgramOf)
        (m : MachineMeaning) (fault : WordFaultOf) →
        IsWordFault words fault → IsSetUp words contents o p m → ⊥ }
    ensures assembly { (words : List (List ℕ)) (contents : Contents) (o : OptionsOf) (p : ProgramOf)
        (m : MachineMeaning) (s : StatusOf) →
        IsAsmRefusal contents o s → IsSetUp words contents o p m → ⊥ }
    ensures no_assembly { (words : List (List ℕ)) (contents : Contents) (o : OptionsOf) (p : ProgramOf)
        (m : MachineMeaning) → contents o.input ≡ None → IsSetUp words contents o p m → ⊥ }
    ensures table { (words : List (List ℕ)) (contents : Contents) (o : OptionsOf) (p : ProgramOf)
        (m : MachineMeaning) (s : StatusOf) → fixed_of o ≡ None →
        IsTableRefusal contents o s → IsSetUp words contents o p m → ⊥ }
    ensures illness { (words : List (List ℕ)) (contents : Contents) (o : OptionsOf) (p : ProgramOf)
        (m : MachineMeaning) (records : List RecordOf) (f : IllnessOf) → fixed_of o ≡ None →
        IsTable contents o records → illness_of (entries_of records) ≡ Some f →
        IsSetUp words contents o p m → ⊥ }
    ensures no_table { (words : List (List ℕ)) (contents : Contents) (o : OptionsOf) (p : ProgramOf)
        (m : MachineMeaning) → fixed_of o ≡ None → contents o.table ≡ None →
        IsSetUp words contents o p m → ⊥ }
{}

/// Words ask for one thing: the report on files, or on the program that a number gives; and words
/// that are refused for nothing.
pub fn one_request()
    ensures files_or_load { (words : List (List ℕ)) (o : OptionsOf) (seed : ℕ) →
        IsAsked words o → IsLoadAsked words seed → ⊥ }
    ensures refused { (words : List (List ℕ)) (fault : WordFaultOf) (seed : ℕ) →
        IsWordFault words fault → IsLoadAsked words seed → ⊥ }
    ensures one_load { (words : List (List ℕ)) (seed other : ℕ) →
        IsLoadAsked words seed → IsLoadAsked words other → seed ≡ other }
{}
