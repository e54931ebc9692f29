//! A load behind a store that it may alias.
use machine_model::Limits;
use mca_fixed::NoMemory;
use mem_queues::MemQueues;
use rv_isa::Kind;
use std::alloc::Global;

/// The load waits until the store has completed, and fills a load queue of one entry.
pub fn a_load_waits_for_a_store(alloc: Global) -> Result<String, NoMemory> {
    let limits = Limits {
        width: 1,
        reorder: 4,
        retire: 0,
        loads: 1,
        stores: 0,
        registers: 0,
        no_alias: false,
    };
    let mut queues = MemQueues::make(alloc, &limits)?;
    queues.enter(0, Kind::Store);
    queues.enter(1, Kind::Load);
    let room = queues.has_room(Kind::Load);
    let store = queues.may_issue(0, 2);
    let before = queues.may_issue(1, 2);
    queues.issued(0, 2, 5);
    let early = queues.may_issue(1, 4);
    let late = queues.may_issue(1, 5);
    Ok(format!(in alloc;
        "mem_queues: store {store}, load behind it {before}, in the cycle before it completes {early}, then {late}; room for a load {room}"
    )?)
}
