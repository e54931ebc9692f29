//! Whether a row has room to dispatch, by counts over the older rows of a table.
ghost use Rattle.std.specs.Prelude.{true, ◌≡◌, ◌+◌, ◌*◌, ◌^◌, ◌<◌, ◌≤◌, ◌&&◌, ◌||◌, ℕ, Option, Some, length, min, not, nat_lt, nat_le, nat_eq, take, if◌then◌else◌};
ghost use Rattle.std.specs.List.{list_any, list_all};
ghost use Rattle.cycle_rules.specs.Below.{sum_below, count_below, all_below};
ghost use Rattle.cycle_rules.specs.Bind.{AreBound, IsBound, row_of};
ghost use Rattle.cycle_rules.specs.Dispatch.{cost_in, cost_of, fits_buffers, fits_group, fits_loads, fits_registers, fits_reorder, fits_stores, has_room, is_held, share, fits_file};
ghost use Rattle.cycle_rules.specs.Given.{row_in, input_in, size_in};
ghost use Rattle.cycle_rules.specs.Row.{times, is_load, is_store, names, entries};
ghost use Rattle.machine_model.specs.declared.facts.Use.{Use as UseOf};
ghost use Rattle.mca_fixed.specs.declared.limits.TheConstants.{MOST_ROWS};

use crate::given::{Given, used_by};
use machine_model::{FileShare, Kind, Machine, Use};
use rv_isa::Reg;

// The part of the width that a row of a size takes in cycle `c`, where it came in cycle `from`.
#[tactic(auto, unfolding(crate::specs::Dispatch::share))]
fn share(width: u32, size: u32, from: u64, c: u64) -> u32
    requires { 0 < width }
    ensures { result ≡ share width size from c }
{
    if c < from {
        return 0;
    }
    let past = c - from;
    if past >= size as u64 {
        return 0;
    }
    let gone = width as u64 * past;
    if gone >= size as u64 {
        return 0;
    }
    width.min(size - gone as u32)
}

// The parts of the width that the older rows take in cycle `c`.
#[tactic(auto, using(crate::proofs::Below::sum_zero, crate::proofs::Below::sum_more))]
pub(crate) fn shares(given: &Given, width: u32, reorder: u32, j: usize, c: u64) -> u64
    requires width { 0 < width }
    requires run { j < given.now.count }
    requires given { j < length given.now.rows.now }
    ensures is { result ≡ sum_below j (λ k. share width (size_in given.now.body.now reorder k)
        (times given.now.rows.now k).dispatch c) }
    ensures low { result ≤ j * 2 ^ 32 }
{
    let mut sum = 0;
    for k in 0..j {
        sum += share(width, given.uops(reorder, k), given.time(k).dispatch, c) as u64;
    }
    sum
}

// Whether a row neither ends its group nor takes part of the width in cycle `c`.
fn lets_join(given: &Given, width: u32, reorder: u32, k: usize, c: u64) -> bool
    requires width { 0 < width }
    requires given { k < length given.now.rows.now }
    ensures { result ≡ (not (row_in given.now.body.now k).ends_group || nat_eq (share width
        (size_in given.now.body.now reorder k) (times given.now.rows.now k).dispatch c) 0) }
{
    if !given.row(k).ends_group {
        return true;
    }
    share(width, given.uops(reorder, k), given.time(k).dispatch, c) == 0
}

// Whether no older row that ends its group takes part of the width in cycle `c`.
#[tactic(auto, using(crate::proofs::Below::all_zero, crate::proofs::Below::all_more))]
fn all_let_join(given: &Given, width: u32, reorder: u32, j: usize, c: u64) -> bool
    requires width { 0 < width }
    requires run { j < given.now.count }
    requires given { j < length given.now.rows.now }
    ensures { result ≡ all_below j (λ k. not (row_in given.now.body.now k).ends_group || nat_eq
        (share width (size_in given.now.body.now reorder k)
        (times given.now.rows.now k).dispatch c) 0) }
{
    for k in 0..j {
        if !lets_join(given, width, reorder, k, c) {
            return false;
        }
    }
    true
}

// Whether a row needs an empty group: it begins one, or is wider than the width.
fn needs_empty(begins_group: bool, size: u32, width: u32) -> bool
    ensures { result ≡ (begins_group || nat_lt width size) }
{
    begins_group || size > width
}

// Whether a group of which so much is taken has place for a row.
fn has_place(width: u32, size: u32, taken: u64, alone: bool, joins: bool) -> bool
    requires { taken ≤ MOST_ROWS * 2 ^ 32 }
    ensures { result ≡ (nat_le (taken + min size width) width && (not alone || nat_eq taken 0)
        && joins) }
{
    if taken + size.min(width) as u64 > width as u64 {
        return false;
    }
    (!alone || taken == 0) && joins
}

/// Whether the dispatch group of cycle `c` has place for a row.
pub(crate) fn fits_group<M: Machine>(machine: &M, given: &Given, j: usize, c: u64) -> bool
    requires run { j < given.now.count }
    requires given { j < length given.now.rows.now }
    ensures { result ≡ fits_group (input_in (M.meaning machine.now)
        given.now.body.now given.now.count) (times given.now.rows.now) j c }
{
    let limits = machine.limits();
    let size = given.uops(limits.reorder, j);
    let taken = shares(given, limits.width, limits.reorder, j, c);
    let alone = needs_empty(given.row(j).begins_group, size, limits.width);
    let joins = all_let_join(given, limits.width, limits.reorder, j, c);
    has_place(limits.width, size, taken, alone, joins)
}

// What a row holds of the reorder buffer in cycle `c`.
fn held_size(given: &Given, reorder: u32, k: usize, c: u64) -> u32
    requires { k < length given.now.rows.now }
    ensures { result ≡ (if is_held (times given.now.rows.now) c k then size_in
        given.now.body.now reorder k else 0) }
{
    if given.is_held(k, c) {
        given.uops(reorder, k)
    } else {
        0
    }
}

// What the older rows hold of the reorder buffer in cycle `c`.
#[tactic(auto, using(crate::proofs::Below::sum_zero, crate::proofs::Below::sum_more))]
fn held_sizes(given: &Given, reorder: u32, j: usize, c: u64) -> u64
    requires run { j < given.now.count }
    requires given { j < length given.now.rows.now }
    ensures is { result ≡ sum_below j (λ k. if is_held (times given.now.rows.now) c k then size_in
        given.now.body.now reorder k else 0) }
    ensures low { result ≤ j * 2 ^ 32 }
{
    let mut sum = 0;
    for k in 0..j {
        sum += held_size(given, reorder, k, c) as u64;
    }
    sum
}

/// Whether the reorder buffer has room for a row in cycle `c`.
#[tactic(auto, unfolding(crate::specs::Dispatch::fits_reorder, crate::specs::Row::uops_of))]
pub(crate) fn fits_reorder<M: Machine>(machine: &M, given: &Given, j: usize, c: u64) -> bool
    requires run { j < given.now.count }
    requires given { j < length given.now.rows.now }
    ensures { result ≡ fits_reorder (input_in (M.meaning machine.now)
        given.now.body.now given.now.count) (times given.now.rows.now) j c }
{
    let reorder = machine.limits().reorder;
    let held = held_sizes(given, reorder, j, c);
    held + given.uops(reorder, j) as u64 <= reorder as u64
}

// Whether a bound, of which 0 means none, leaves room for one more.
#[tactic(auto, unfolding(crate::specs::Dispatch::has_room))]
pub(crate) fn has_room(bound: u32, held: u32) -> bool
    ensures { result ≡ has_room bound held }
{
    bound == 0 || held < bound
}

// 1 for a row that has not retired in cycle `c`, and writes a register.
fn held_write(given: &Given, k: usize, c: u64) -> u32
    requires { k < length given.now.rows.now }
    ensures { result ≡ (if nat_lt 0 (row_in given.now.body.now k).rd && is_held
        (times given.now.rows.now) c k then 1 else 0) }
{
    if given.row(k).rd.number() > 0 && given.is_held(k, c) {
        1
    } else {
        0
    }
}

// How many older rows that write a register have not retired in cycle `c`.
#[tactic(auto, using(crate::proofs::Below::count_zero, crate::proofs::Below::count_more))]
fn held_writes(given: &Given, j: usize, c: u64) -> u32
    requires run { j < given.now.count }
    requires given { j < length given.now.rows.now }
    ensures { result ≡ count_below j (λ k. nat_lt 0 (row_in given.now.body.now k).rd && is_held
        (times given.now.rows.now) c k) }
{
    let mut count = 0;
    for k in 0..j {
        count += held_write(given, k, c);
    }
    count
}

// Whether a bound on the writes that have not retired leaves room for one more.
#[tactic(auto, unfolding(crate::specs::Dispatch::has_room))]
fn writes_fit(bound: u32, given: &Given, j: usize, c: u64) -> bool
    requires run { j < given.now.count }
    requires given { j < length given.now.rows.now }
    ensures { result ≡ has_room bound (count_below j (λ k. nat_lt 0 (row_in given.now.body.now k).rd
        && is_held (times given.now.rows.now) c k)) }
{
    if bound == 0 {
        return true;
    }
    has_room(bound, held_writes(given, j, c))
}

// What the write of a register costs in a file.
#[tactic(auto, unfolding(crate::specs::Dispatch::cost_in))]
fn cost_in<M: Machine>(machine: &M, file: u8, rd: Reg) -> u32
    ensures { result ≡ cost_in (M.meaning machine.now) file rd }
{
    if rd.number() == 0 {
        return 0;
    }
    match machine.file_of(rd) {
        Some(part) if part.file == file => part.cost,
        _ => 0,
    }
}

// What a row holds of a register file in cycle `c`.
fn held_cost<M: Machine>(machine: &M, given: &Given, file: u8, k: usize, c: u64) -> u32
    requires { k < length given.now.rows.now }
    ensures { result ≡ (if is_held (times given.now.rows.now) c k then cost_in
        (M.meaning machine.now) file (row_in given.now.body.now k).rd else 0) }
{
    if given.is_held(k, c) {
        cost_in(machine, file, given.row(k).rd)
    } else {
        0
    }
}

// What the older rows hold of a register file in cycle `c`.
#[tactic(auto, using(crate::proofs::Below::sum_zero, crate::proofs::Below::sum_more))]
fn held_costs<M: Machine>(machine: &M, given: &Given, file: u8, j: usize, c: u64) -> u64
    requires run { j < given.now.count }
    requires given { j < length given.now.rows.now }
    ensures is { result ≡ sum_below j (λ k. if is_held (times given.now.rows.now) c k then cost_in
        (M.meaning machine.now) file (row_in given.now.body.now k).rd else 0) }
    ensures low { result ≤ j * 2 ^ 32 }
{
    let mut sum = 0;
    for k in 0..j {
        sum += held_cost(machine, given, file, k, c) as u64;
    }
    sum
}

// Whether a share of a register file fits into the file in cycle `c`.
fn fits_share<M: Machine>(machine: &M, given: &Given, part: FileShare, j: usize, c: u64) -> bool
    requires run { j < given.now.count }
    requires given { j < length given.now.rows.now }
    ensures { result ≡ fits_file (input_in (M.meaning machine.now)
        given.now.body.now given.now.count) (times given.now.rows.now) j c (Some part) }
{
    let size = machine.file_size(part.file as usize);
    if size == 0 {
        return true;
    }
    held_costs(machine, given, part.file, j, c) + part.cost as u64 <= size as u64
}

/// Whether a row's register may be written in cycle `c`.
#[tactic(auto, unfolding(crate::specs::Dispatch::fits_registers))]
pub(crate) fn fits_registers<M: Machine>(machine: &M, given: &Given, j: usize, c: u64) -> bool
    requires run { j < given.now.count }
    requires given { j < length given.now.rows.now }
    ensures { result ≡ fits_registers (input_in (M.meaning machine.now)
        given.now.body.now given.now.count) (times given.now.rows.now) j c }
{
    let rd = given.row(j).rd;
    if rd.number() == 0 {
        return true;
    }
    if !writes_fit(machine.limits().registers, given, j, c) {
        return false;
    }
    match machine.file_of(rd) {
        Some(part) => fits_share(machine, given, part, j, c),
        None => true,
    }
}

// Whether it is a load.
#[tactic(auto, unfolding(crate::specs::Row::is_load))]
pub(crate) fn is_load(kind: Kind) -> bool
    ensures { result ≡ is_load kind }
{
    match kind {
        Kind::Load => true,
        Kind::Plain | Kind::Store | Kind::Barrier => false,
    }
}

// Whether it is a store.
#[tactic(auto, unfolding(crate::specs::Row::is_store))]
pub(crate) fn is_store(kind: Kind) -> bool
    ensures { result ≡ is_store kind }
{
    match kind {
        Kind::Store => true,
        Kind::Plain | Kind::Load | Kind::Barrier => false,
    }
}

// 1 for a load that has not retired in cycle `c`.
fn held_load(given: &Given, k: usize, c: u64) -> u32
    requires { k < length given.now.rows.now }
    ensures { result ≡ (if is_load (row_in given.now.body.now k).kind && is_held
        (times given.now.rows.now) c k then 1 else 0) }
{
    if is_load(given.row(k).kind) && given.is_held(k, c) {
        1
    } else {
        0
    }
}

// How many older loads have not retired in cycle `c`.
#[tactic(auto, using(crate::proofs::Below::count_zero, crate::proofs::Below::count_more))]
fn held_loads(given: &Given, j: usize, c: u64) -> u32
    requires run { j < given.now.count }
    requires given { j < length given.now.rows.now }
    ensures { result ≡ count_below j (λ k. is_load (row_in given.now.body.now k).kind && is_held
        (times given.now.rows.now) c k) }
{
    let mut count = 0;
    for k in 0..j {
        count += held_load(given, k, c);
    }
    count
}

/// Whether the load queue has an entry for a row in cycle `c`.
#[tactic(auto, unfolding(crate::specs::Dispatch::fits_loads))]
pub(crate) fn fits_loads<M: Machine>(machine: &M, given: &Given, j: usize, c: u64) -> bool
    requires run { j < given.now.count }
    requires given { j < length given.now.rows.now }
    ensures { result ≡ fits_loads (input_in (M.meaning machine.now)
        given.now.body.now given.now.count) (times given.now.rows.now) j c }
{
    if !is_load(given.row(j).kind) {
        return true;
    }
    has_room(machine.limits().loads, held_loads(given, j, c))
}

// 1 for a store that has not retired in cycle `c`.
fn held_store(given: &Given, k: usize, c: u64) -> u32
    requires { k < length given.now.rows.now }
    ensures { result ≡ (if is_store (row_in given.now.body.now k).kind && is_held
        (times given.now.rows.now) c k then 1 else 0) }
{
    if is_store(given.row(k).kind) && given.is_held(k, c) {
        1
    } else {
        0
    }
}

// How many older stores have not retired in cycle `c`.
#[tactic(auto, using(crate::proofs::Below::count_zero, crate::proofs::Below::count_more))]
fn held_stores(given: &Given, j: usize, c: u64) -> u32
    requires run { j < given.now.count }
    requires given { j < length given.now.rows.now }
    ensures { result ≡ count_below j (λ k. is_store (row_in given.now.body.now k).kind && is_held
        (times given.now.rows.now) c k) }
{
    let mut count = 0;
    for k in 0..j {
        count += held_store(given, k, c);
    }
    count
}

/// Whether the store queue has an entry for a row in cycle `c`.
#[tactic(auto, unfolding(crate::specs::Dispatch::fits_stores))]
pub(crate) fn fits_stores<M: Machine>(machine: &M, given: &Given, j: usize, c: u64) -> bool
    requires run { j < given.now.count }
    requires given { j < length given.now.rows.now }
    ensures { result ≡ fits_stores (input_in (M.meaning machine.now)
        given.now.body.now given.now.count) (times given.now.rows.now) j c }
{
    if !is_store(given.row(j).kind) {
        return true;
    }
    has_room(machine.limits().stores, held_stores(given, j, c))
}

// Whether one of the uses names a resource.
fn names(uses: &[Use], resource: u8) -> bool
    ensures { result ≡ list_any (λ w. nat_eq w.resource resource) uses.now }
{
    uses.iter().any(|used| used.resource == resource)
}

// 1 for a row that names a resource and has not issued in cycle `c`.
#[tactic(auto, unfolding(crate::specs::Row::names))]
fn waiting(given: &Given, resource: u8, k: usize, c: u64) -> u32
    requires { k < length given.now.rows.now }
    ensures { result ≡ (if names resource (row_in given.now.body.now k) && nat_lt c
        (times given.now.rows.now k).issue then 1 else 0) }
{
    if names(used_by(given.row(k)), resource) && c < given.time(k).issue {
        1
    } else {
        0
    }
}

// How many older rows that name a resource have not issued in cycle `c`.
#[tactic(auto, using(crate::proofs::Below::count_zero, crate::proofs::Below::count_more))]
fn all_waiting(given: &Given, resource: u8, j: usize, c: u64) -> u32
    requires run { j < given.now.count }
    requires given { j < length given.now.rows.now }
    ensures { result ≡ count_below j (λ k. names resource (row_in given.now.body.now k) && nat_lt c
        (times given.now.rows.now k).issue) }
{
    let mut count = 0;
    for k in 0..j {
        count += waiting(given, resource, k, c);
    }
    count
}

// The entries of a buffer; 0 where it counts none.
#[tactic(auto, unfolding(crate::specs::Row::entries))]
fn entries(buffer: i32) -> u32
    ensures { result ≡ entries buffer }
{
    if buffer < 0 { 0 } else { buffer as u32 }
}

// Whether a bound on the rows that name a resource and wait to issue leaves room for one more.
#[tactic(auto, unfolding(crate::specs::Dispatch::has_room))]
fn waits_fit(bound: u32, given: &Given, resource: u8, j: usize, c: u64) -> bool
    requires run { j < given.now.count }
    requires given { j < length given.now.rows.now }
    ensures { result ≡ has_room bound (count_below j (λ k. names resource
        (row_in given.now.body.now k) && nat_lt c (times given.now.rows.now k).issue)) }
{
    if bound == 0 {
        return true;
    }
    has_room(bound, all_waiting(given, resource, j, c))
}

// Whether the buffer of a resource that is used has an entry for a row in cycle `c`.
fn fits_buffer<M: Machine>(machine: &M, given: &Given, used: &Use, j: usize, c: u64) -> bool
    requires known { nat_lt used.now.resource (M.meaning machine.now).resource_count ≡ true }
    requires run { j < given.now.count }
    requires given { j < length given.now.rows.now }
    ensures { result ≡ has_room (entries ((M.meaning machine.now).buffer used.now.resource))
        (count_below j (λ k. names used.now.resource (row_in given.now.body.now k) && nat_lt c
        (times given.now.rows.now k).issue)) }
{
    let bound = entries(machine.buffer(used.resource as usize));
    waits_fit(bound, given, used.resource, j, c)
}

// Whether the buffers of resources that are used have entries for a row in cycle `c`.
#[tactic(auto, using(crate::proofs::Below::known_at))]
fn fit_buffers<M: Machine>(machine: &M, given: &Given, uses: &[Use], j: usize, c: u64) -> bool
    requires known { list_all (λ w. nat_lt w.resource (M.meaning machine.now).resource_count)
        uses.now ≡ true }
    requires run { j < given.now.count }
    requires given { j < length given.now.rows.now }
    ensures { result ≡ list_all (λ w. has_room (entries ((M.meaning machine.now).buffer w.resource))
        (count_below j (λ k. names w.resource (row_in given.now.body.now k) && nat_lt c
        (times given.now.rows.now k).issue))) uses.now }
{
    for used in uses {
        if !fits_buffer(machine, given, used, j, c) {
            return false;
        }
    }
    true
}

/// Whether the buffers of the resources that a row names have entries for it in cycle `c`.
#[tactic(auto, unfolding(crate::specs::Dispatch::fits_buffers))]
pub(crate) fn fits_buffers<M: Machine>(machine: &M, given: &Given, j: usize, c: u64) -> bool
    requires bound { AreBound (M.meaning machine.now) given.now.body.now }
    requires run { j < given.now.count }
    requires given { j < length given.now.rows.now }
    ensures { result ≡ fits_buffers (input_in (M.meaning machine.now)
        given.now.body.now given.now.count) (times given.now.rows.now) j c }
{
    let row = given.row(j);
    fit_buffers(machine, given, used_by(row), j, c)
}
