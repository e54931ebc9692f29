//! Why there is no report.
ghost use Rattle.std.specs.Prelude.{◌≡◌, true};
ghost use Rattle.mca_run.specs.Stop.{is_stop};

use crate::status::{LimitKind, MachineRefusal, OpKind, Status};
use mca_fixed::{MOST_REPORT_BYTES, NoMemory};
use mca_views::ViewFault;
use mca_words::{WordFault, WordKind};
use rv_asm::{AsmKind, AsmRefusal};
use sched_checks::{IllKind, TableIllness};
use sched_records::{TableKind, TableRefusal};
use sched_validate::BindFault;
use std::alloc::{AllocError, AllocFailed};

/// Why there is no report: a status that refuses the input, a read fault or want of memory. It is neither `Done` nor
/// `WriteFault`, and no refusal in it tells of want of memory.
#[derive(Clone, Copy, Debug)]
pub(crate) struct Stop {
    pub status: Status,
    ghost stops: { is_stop status ≡ true },
}

impl From<NoMemory> for Stop {
    ghost use Rattle.mca_run.specs.declared.status.Status.TheVariants.{Memory};

    ghost from_gives = { λ _ stop. stop.status ≡ Memory };

    fn from(_: NoMemory) -> Stop {
        Stop {
            status: Status::Memory,
        }
    }
}

impl From<AllocError> for Stop {
    ghost use Rattle.mca_run.specs.declared.status.Status.TheVariants.{Memory};

    ghost from_gives = { λ _ stop. stop.status ≡ Memory };

    fn from(_: AllocError) -> Stop {
        Stop {
            status: Status::Memory,
        }
    }
}

impl<T: Drop> From<AllocFailed<T>> for Stop {
    ghost use Rattle.mca_run.specs.declared.status.Status.TheVariants.{Memory};

    ghost from_gives = { λ _ stop. stop.status ≡ Memory };

    fn from(_: AllocFailed<T>) -> Stop {
        Stop {
            status: Status::Memory,
        }
    }
}

impl From<WordFault> for Stop {
    ghost use Rattle.mca_run.specs.Steps.{words_status};

    ghost from_gives = { λ fault stop. stop.status ≡ words_status fault fault.kind };

    fn from(fault: WordFault) -> Stop {
        match fault.kind {
            WordKind::Memory => Stop {
                status: Status::Memory,
            },
            _ => Stop {
                status: Status::Words(fault),
            },
        }
    }
}

impl From<AsmRefusal> for Stop {
    ghost use Rattle.mca_run.specs.Steps.{assembly_status};

    ghost from_gives = { λ refusal stop. stop.status ≡ assembly_status refusal refusal.kind };

    fn from(refusal: AsmRefusal) -> Stop {
        match refusal.kind {
            AsmKind::Memory => Stop {
                status: Status::Memory,
            },
            _ => Stop {
                status: Status::Assembly(refusal),
            },
        }
    }
}

impl From<TableRefusal> for Stop {
    ghost use Rattle.mca_run.specs.Steps.{table_status};

    ghost from_gives = { λ refusal stop. stop.status ≡ table_status refusal refusal.kind };

    fn from(refusal: TableRefusal) -> Stop {
        match refusal.kind {
            TableKind::Memory => Stop {
                status: Status::Memory,
            },
            _ => Stop {
                status: Status::Table(refusal),
            },
        }
    }
}

impl From<TableIllness> for Stop {
    ghost use Rattle.mca_run.specs.Steps.{ill_status};

    ghost from_gives = { λ illness stop. stop.status ≡ ill_status illness.number illness.kind };

    fn from(illness: TableIllness) -> Stop {
        match illness.kind {
            IllKind::Memory => Stop {
                status: Status::Memory,
            },
            kind => Stop {
                status: Status::Machine(MachineRefusal::Record(illness.number, kind)),
            },
        }
    }
}

impl From<BindFault> for Stop {
    ghost use Rattle.mca_run.specs.Refusal.{opcode_status};

    ghost from_gives = { λ fault stop. stop.status ≡ opcode_status fault };

    fn from(fault: BindFault) -> Stop {
        let status = match fault {
            BindFault::NoWriteRes(op) => {
                Status::Machine(MachineRefusal::Opcode(op, OpKind::NoWriteRes))
            }
            BindFault::UnsupportedOp(op) => {
                Status::Machine(MachineRefusal::Opcode(op, OpKind::UnsupportedOp))
            }
            BindFault::Memory => Status::Memory,
        };
        Stop { status }
    }
}

impl From<ViewFault> for Stop {
    ghost use Rattle.mca_run.specs.Steps.{view_status};

    ghost from_gives = { λ fault stop. stop.status ≡ view_status fault };

    fn from(fault: ViewFault) -> Stop {
        let status = match fault {
            ViewFault::TooLong => {
                Status::Limit(LimitKind::ReportBytes, MOST_REPORT_BYTES as u64 + 1)
            }
            ViewFault::Memory => Status::Memory,
        };
        Stop { status }
    }
}
