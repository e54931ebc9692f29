//! The fields of records.
ghost use Rattle.std.specs.Prelude.{◌≡◌, nat_eq, find};
ghost use Rattle.std.specs.Cmp.Lexicographic.{pointwise};
ghost use Rattle.sched_records.specs.Fields.{field_name, field_number, field_of, form_of};

use crate::class::{AtomForm, ValueForm};

/// A field of some class, under its name in a table; in the byte order of the names.
#[derive(Clone, Copy, Debug)]
pub enum Field {
    BeginGroup,
    BufferSize,
    CompleteModel,
    EnableIntervals,
    EndGroup,
    FullInstRWOverlapCheck,
    HighLatency,
    IssueWidth,
    Latency,
    LoadLatency,
    LoopMicroOpBufferSize,
    MicroOpBufferSize,
    MispredictPenalty,
    NoModel,
    NumMicroOps,
    PostRAScheduler,
    ReleaseAtCycles,
    RetireOOO,
    SchedModel,
    SingleIssue,
    Unsupported,
    UnsupportedFeatures,
}

const FIELDS: [Field; 22] = [
    Field::BeginGroup,
    Field::BufferSize,
    Field::CompleteModel,
    Field::EnableIntervals,
    Field::EndGroup,
    Field::FullInstRWOverlapCheck,
    Field::HighLatency,
    Field::IssueWidth,
    Field::Latency,
    Field::LoadLatency,
    Field::LoopMicroOpBufferSize,
    Field::MicroOpBufferSize,
    Field::MispredictPenalty,
    Field::NoModel,
    Field::NumMicroOps,
    Field::PostRAScheduler,
    Field::ReleaseAtCycles,
    Field::RetireOOO,
    Field::SchedModel,
    Field::SingleIssue,
    Field::Unsupported,
    Field::UnsupportedFeatures,
];

impl Field {
    /// The name of the field, as a table writes it.
    pub fn name(self) -> &'static str
        ensures { result.now ≡ field_name self }
    {
        match self {
            Field::BeginGroup => "BeginGroup",
            Field::BufferSize => "BufferSize",
            Field::CompleteModel => "CompleteModel",
            Field::EnableIntervals => "EnableIntervals",
            Field::EndGroup => "EndGroup",
            Field::FullInstRWOverlapCheck => "FullInstRWOverlapCheck",
            Field::HighLatency => "HighLatency",
            Field::IssueWidth => "IssueWidth",
            Field::Latency => "Latency",
            Field::LoadLatency => "LoadLatency",
            Field::LoopMicroOpBufferSize => "LoopMicroOpBufferSize",
            Field::MicroOpBufferSize => "MicroOpBufferSize",
            Field::MispredictPenalty => "MispredictPenalty",
            Field::NoModel => "NoModel",
            Field::NumMicroOps => "NumMicroOps",
            Field::PostRAScheduler => "PostRAScheduler",
            Field::ReleaseAtCycles => "ReleaseAtCycles",
            Field::RetireOOO => "RetireOOO",
            Field::SchedModel => "SchedModel",
            Field::SingleIssue => "SingleIssue",
            Field::Unsupported => "Unsupported",
            Field::UnsupportedFeatures => "UnsupportedFeatures",
        }
    }

    /// The form that each value of the field has.
    pub(crate) fn form(self) -> ValueForm
        ensures { result ≡ form_of self }
    {
        match self {
            Field::BeginGroup => ValueForm::One(AtomForm::Truth),
            Field::BufferSize => ValueForm::One(AtomForm::Number),
            Field::CompleteModel => ValueForm::Any,
            Field::EnableIntervals => ValueForm::Any,
            Field::EndGroup => ValueForm::One(AtomForm::Truth),
            Field::FullInstRWOverlapCheck => ValueForm::Any,
            Field::HighLatency => ValueForm::Any,
            Field::IssueWidth => ValueForm::One(AtomForm::Number),
            Field::Latency => ValueForm::One(AtomForm::Number),
            Field::LoadLatency => ValueForm::Any,
            Field::LoopMicroOpBufferSize => ValueForm::Any,
            Field::MicroOpBufferSize => ValueForm::One(AtomForm::Number),
            Field::MispredictPenalty => ValueForm::Any,
            Field::NoModel => ValueForm::Any,
            Field::NumMicroOps => ValueForm::One(AtomForm::Number),
            Field::PostRAScheduler => ValueForm::Any,
            Field::ReleaseAtCycles => ValueForm::Each(AtomForm::Number),
            Field::RetireOOO => ValueForm::One(AtomForm::Truth),
            Field::SchedModel => ValueForm::One(AtomForm::Name),
            Field::SingleIssue => ValueForm::One(AtomForm::Truth),
            Field::Unsupported => ValueForm::One(AtomForm::Truth),
            Field::UnsupportedFeatures => ValueForm::Any,
        }
    }

    /// Whether both are the same field.
    pub fn is(self, other: Field) -> bool
        ensures { result ≡ nat_eq (field_number self) (field_number other) }
    {
        self as u8 == other as u8
    }
}

fn named(fields: &[Field], name: &[u8]) -> Option<Field>
    ensures { result ≡ find (λ f. pointwise nat_eq name.now (field_name f)) fields.now }
{
    for field in fields {
        if name == field.name().as_bytes() {
            return Some(*field);
        }
    }
    None
}

/// The field of a name, of whatever class; none for any other text.
#[tactic(auto, unfolding(crate::specs::Fields::field_of))]
pub fn field_of(name: &[u8]) -> Option<Field>
    ensures { result ≡ field_of name.now }
{
    named(&FIELDS, name)
}
