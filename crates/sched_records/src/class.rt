//! The classes of records.
ghost use Rattle.std.specs.Prelude.{◌≡◌, nat_eq, find};
ghost use Rattle.std.specs.Cmp.Lexicographic.{pointwise};
ghost use Rattle.sched_records.specs.Classes.{class_name, class_of, arguments, needed, fields, has_field};

use crate::field::Field;

/// The form of what stands alone or in a list.
#[derive(Clone, Copy, Debug)]
pub(crate) enum AtomForm {
    Number,
    Name,
    /// `true`, `false`, 1 or 0.
    Truth,
}

/// The form of a value.
#[derive(Clone, Copy, Debug)]
pub(crate) enum ValueForm {
    One(AtomForm),
    /// A list, each element of the form.
    Each(AtomForm),
    /// `(instrs ..)`.
    Instrs,
    Any,
}

/// A class of records, under its name in a table.
#[derive(Clone, Copy, Debug)]
pub enum Class {
    /// The machine as a whole.
    SchedMachineModel,
    /// A resource: units that are alike.
    ProcResource,
    /// A resource made of others.
    ProcResGroup,
    /// What the instructions of a write class take of the machine.
    WriteRes,
    /// The same of a write class that is the record itself.
    SchedWriteRes,
    /// By how many cycles a read may come later than the issue.
    ReadAdvance,
    /// The physical registers for some register classes.
    RegisterFile,
    /// The reorder buffer.
    RetireControlUnit,
    /// The resource whose buffer bounds the loads.
    LoadQueue,
    /// The resource whose buffer bounds the stores.
    StoreQueue,
    /// The write and the reads of some opcodes, in place of their default classes.
    InstRW,
    /// A name for a write class.
    SchedWrite,
    /// A name for a read class.
    SchedRead,
}

const CLASSES: [Class; 13] = [
    Class::SchedMachineModel,
    Class::ProcResource,
    Class::ProcResGroup,
    Class::WriteRes,
    Class::SchedWriteRes,
    Class::ReadAdvance,
    Class::RegisterFile,
    Class::RetireControlUnit,
    Class::LoadQueue,
    Class::StoreQueue,
    Class::InstRW,
    Class::SchedWrite,
    Class::SchedRead,
];

const WRITE_FIELDS: [Field; 9] = [
    Field::BeginGroup,
    Field::EndGroup,
    Field::Latency,
    Field::NumMicroOps,
    Field::ReleaseAtCycles,
    Field::RetireOOO,
    Field::SchedModel,
    Field::SingleIssue,
    Field::Unsupported,
];

impl Class {
    /// The name of the class, as a table writes it.
    pub fn name(self) -> &'static str
        ensures { result.now ≡ class_name self }
    {
        match self {
            Class::SchedMachineModel => "SchedMachineModel",
            Class::ProcResource => "ProcResource",
            Class::ProcResGroup => "ProcResGroup",
            Class::WriteRes => "WriteRes",
            Class::SchedWriteRes => "SchedWriteRes",
            Class::ReadAdvance => "ReadAdvance",
            Class::RegisterFile => "RegisterFile",
            Class::RetireControlUnit => "RetireControlUnit",
            Class::LoadQueue => "LoadQueue",
            Class::StoreQueue => "StoreQueue",
            Class::InstRW => "InstRW",
            Class::SchedWrite => "SchedWrite",
            Class::SchedRead => "SchedRead",
        }
    }

    /// The forms of the arguments, in order.
    pub(crate) fn arguments(self) -> &'static [ValueForm]
        ensures { result.now ≡ arguments self }
    {
        match self {
            Class::SchedMachineModel => &[],
            Class::ProcResource => &[ValueForm::One(AtomForm::Number)],
            Class::ProcResGroup => &[ValueForm::Each(AtomForm::Name)],
            Class::WriteRes => &[
                ValueForm::One(AtomForm::Name),
                ValueForm::Each(AtomForm::Name),
            ],
            Class::SchedWriteRes => &[ValueForm::Each(AtomForm::Name)],
            Class::ReadAdvance => &[
                ValueForm::One(AtomForm::Name),
                ValueForm::One(AtomForm::Number),
                ValueForm::Each(AtomForm::Name),
            ],
            Class::RegisterFile => &[
                ValueForm::One(AtomForm::Number),
                ValueForm::Each(AtomForm::Name),
                ValueForm::Each(AtomForm::Number),
                ValueForm::Each(AtomForm::Truth),
                ValueForm::One(AtomForm::Number),
                ValueForm::One(AtomForm::Truth),
            ],
            Class::RetireControlUnit => &[
                ValueForm::One(AtomForm::Number),
                ValueForm::One(AtomForm::Number),
            ],
            Class::LoadQueue => &[ValueForm::One(AtomForm::Name)],
            Class::StoreQueue => &[ValueForm::One(AtomForm::Name)],
            Class::InstRW => &[ValueForm::Each(AtomForm::Name), ValueForm::Instrs],
            Class::SchedWrite => &[],
            Class::SchedRead => &[],
        }
    }

    /// How many of the arguments have to be there.
    pub(crate) fn needed(self) -> usize
        ensures { result ≡ needed self }
    {
        match self {
            Class::SchedMachineModel => 0,
            Class::ProcResource => 1,
            Class::ProcResGroup => 1,
            Class::WriteRes => 2,
            Class::SchedWriteRes => 1,
            Class::ReadAdvance => 2,
            Class::RegisterFile => 1,
            Class::RetireControlUnit => 2,
            Class::LoadQueue => 1,
            Class::StoreQueue => 1,
            Class::InstRW => 2,
            Class::SchedWrite => 0,
            Class::SchedRead => 0,
        }
    }

    /// The fields, in the byte order of their names.
    pub(crate) fn fields(self) -> &'static [Field]
        ensures { result.now ≡ fields self }
    {
        match self {
            Class::SchedMachineModel => &[
                Field::CompleteModel,
                Field::EnableIntervals,
                Field::FullInstRWOverlapCheck,
                Field::HighLatency,
                Field::IssueWidth,
                Field::LoadLatency,
                Field::LoopMicroOpBufferSize,
                Field::MicroOpBufferSize,
                Field::MispredictPenalty,
                Field::NoModel,
                Field::PostRAScheduler,
                Field::UnsupportedFeatures,
            ],
            Class::ProcResource => &[Field::BufferSize, Field::SchedModel],
            Class::ProcResGroup => &[Field::BufferSize, Field::SchedModel],
            Class::WriteRes => &WRITE_FIELDS,
            Class::SchedWriteRes => &WRITE_FIELDS,
            Class::ReadAdvance => &[Field::SchedModel, Field::Unsupported],
            Class::RegisterFile => &[Field::SchedModel],
            Class::RetireControlUnit => &[Field::SchedModel],
            Class::LoadQueue => &[Field::SchedModel],
            Class::StoreQueue => &[Field::SchedModel],
            Class::InstRW => &[Field::SchedModel],
            Class::SchedWrite => &[],
            Class::SchedRead => &[],
        }
    }

    /// Whether records of the class have the field.
    pub(crate) fn has(self, field: Field) -> bool
        ensures { result ≡ has_field self field }
    {
        self.fields().iter().any(|own| field.is(*own))
    }
}

fn named(classes: &[Class], name: &[u8]) -> Option<Class>
    ensures { result ≡ find (λ c. pointwise nat_eq name.now (class_name c)) classes.now }
{
    for class in classes {
        if name == class.name().as_bytes() {
            return Some(*class);
        }
    }
    None
}

/// The class of a name; none for any other text.
#[tactic(auto, unfolding(crate::specs::Classes::class_of))]
pub fn class_of(name: &[u8]) -> Option<Class>
    ensures { result ≡ class_of name.now }
{
    named(&CLASSES, name)
}
