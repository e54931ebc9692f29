//! The registers that are written and not yet retired, and what they cost in each register file.
ghost use Rattle.std.specs.Prelude.{◌≡◌, ◌<◌, ◌≤◌, ◌+◌, ◌-◌, ◌^◌, ℕ, List, [], ◌∷◌, ◌++◌, length, map, get_or, true, ◌||◌, nat_eq, nat_lt, ◌&&◌, IfOk, None, if◌then◌else◌};
ghost use Rattle.std.specs.List.{count_by, range_with_len};
ghost use Rattle.machine_model.specs.Meaning.{MachineMeaning};
ghost use Rattle.mca_fixed.specs.declared.limits.TheConstants.{MOST_ENTRIES};
ghost use Rattle.reg_files.specs.Shape.{IsShape, is_share, fits, share_fits, with_share, less_share, cost_of};

use machine_model::{FileShare, Machine};
use mca_fixed::NoMemory;
use rv_isa::Reg;
use std::alloc::Global;

/// The register files of a machine. Contracts see the writes that hold physical registers, oldest first,
/// as the numbers of the registers that they write (`StandsFor`); a row that writes nothing is a write
/// of x0, which holds nothing.
#[derive(Debug, Drop)]
pub struct Files {
    /// How many registers may be written and not yet retired; 0 for no bound.
    bound: u32,
    /// What a write of each of the 32 registers holds; none for x0 and where no file has the register.
    shares: Vec<Option<FileShare>>,
    /// How many physical registers each file has; 0 for no bound.
    sizes: Vec<u32>,
    /// How many of them are held.
    used: Vec<u32>,
    /// How many writes of each of the 32 registers are held.
    held: Vec<u32>,
    /// How many writes of registers other than x0 are held.
    in_flight: u32,
    ghost shape: { IsShape shares.items sizes.items used.items held.items },
}

impl Files {
    ghost use Rattle.reg_files.specs.Files.{has_room, without};
    ghost use Rattle.reg_files.specs.Held.{StandsFor};

    /// The register files of a machine, with no write in flight. It takes all the memory that they ever
    /// need: two words for each register and each file.
    pub fn make<M: Machine>(alloc: Global, machine: &M) -> Result<Files, NoMemory>
        ensures { IfOk result (λ files. StandsFor (M.meaning machine.now) files []) }
    {
        let shares = shares_of(alloc, machine)?;
        let sizes = sizes_of(alloc, machine)?;
        let used = vec![in alloc; 0u32; machine.file_count()]?;
        let held = vec![in alloc; 0u32; 32]?;
        Ok(Files {
            bound: machine.limits().registers,
            shares,
            sizes,
            used,
            held,
            in_flight: 0,
        })
    }

    /// Whether a write of a register has room: always for x0, else where the bound on registers and the
    /// size of the register's file leave room for it. The work is constant.
    pub fn has_room(&self, rd: Reg) -> bool
        ensures { (m : MachineMeaning) (writes : List ℕ) → StandsFor m self.now writes →
            result ≡ has_room m writes rd }
    {
        is_free(
            rd,
            fits(self.bound, self.in_flight, 1),
            share_fits(&self.sizes, &self.used, self.shares[rd.number() as usize]),
        )
    }

    /// A row that writes a register dispatches: there is room for it, and fewer than 4,096 writes are in
    /// flight. The work is constant.
    pub fn take(&mut self, rd: Reg)
        requires { (m : MachineMeaning) × (writes : List ℕ) × (StandsFor m self.old writes)
            × (has_room m writes rd ≡ true) × (length writes < MOST_ENTRIES) }
        ensures { (m : MachineMeaning) (writes : List ℕ) → StandsFor m self.old writes →
            StandsFor m self.new (writes ++ rd ∷ []) }
    {
        let r = rd.number() as usize;
        self.held[r] += 1;
        self.in_flight += weight(rd);
        let share = self.shares[r];
        take_share(&mut self.used, share);
    }

    /// The oldest write of a register, of which one is in flight, retires. The work is constant.
    pub fn free(&mut self, rd: Reg)
        requires { (m : MachineMeaning) × (writes : List ℕ) × (StandsFor m self.old writes)
            × (0 < count_by (λ x. nat_eq x rd) writes) }
        ensures { (m : MachineMeaning) (writes : List ℕ) → StandsFor m self.old writes →
            StandsFor m self.new (without rd writes) }
    {
        let r = rd.number() as usize;
        self.held[r] -= 1;
        self.in_flight -= weight(rd);
        let share = self.shares[r];
        free_share(&mut self.used, share);
    }
}

/// Whether a bound leaves room.
fn fits(bound: u32, held: u32, cost: u32) -> bool
    ensures { result ≡ fits bound held cost }
{
    bound == 0 || held as u64 + cost as u64 <= bound as u64
}

/// Whether a write has room, by the bound on registers and by its file: one of x0 always has.
fn is_free(rd: Reg, bound: bool, file: bool) -> bool
    ensures { result ≡ (nat_eq rd 0 || (bound && file)) }
{
    rd.number() == 0 || (bound && file)
}

/// How much a write counts, 0 or 1: that of x0 nothing.
fn weight(rd: Reg) -> u32
    ensures value { result ≡ (if nat_lt 0 rd then 1 else 0) }
    ensures small { result ≤ 1 }
{
    if rd.number() > 0 { 1 } else { 0 }
}

/// Whether a share has room in its file.
fn share_fits(sizes: &[u32], used: &[u32], share: Option<FileShare>) -> bool
    requires share { is_share (length used.now) share ≡ true }
    requires sizes { length sizes.now ≡ length used.now }
    ensures { result ≡ share_fits sizes.now used.now share }
{
    match share {
        None => true,
        Some(share) => {
            let file = share.file as usize;
            fits(sizes[file], used[file], share.cost)
        }
    }
}

/// Takes a share from its file.
fn take_share(used: &mut Vec<u32>, share: Option<FileShare>)
    requires share { is_share (length used.old.items) share ≡ true }
    requires small { (f : ℕ) → f < length used.old.items →
        get_or used.old.items f 0 + cost_of f share < 2 ^ 32 }
    ensures { used.new.items ≡ with_share used.old.items share }
{
    if let Some(share) = share {
        used[share.file as usize] += share.cost;
    }
}

/// Gives a share back to its file.
fn free_share(used: &mut Vec<u32>, share: Option<FileShare>)
    requires share { is_share (length used.old.items) share ≡ true }
    requires taken { (f : ℕ) → f < length used.old.items →
        cost_of f share ≤ get_or used.old.items f 0 }
    ensures { used.new.items ≡ less_share used.old.items share }
{
    if let Some(share) = share {
        used[share.file as usize] -= share.cost;
    }
}

/// What a write of a register holds.
fn share_of<M: Machine>(machine: &M, rd: Reg) -> Option<FileShare>
    ensures { result ≡ (if nat_eq rd 0 then None else (M.meaning machine.now).file_of rd) }
{
    if rd.number() == 0 {
        None
    } else {
        machine.file_of(rd)
    }
}

/// What a write of each register holds.
fn shares_of<M: Machine>(alloc: Global, machine: &M) -> Result<Vec<Option<FileShare>>, NoMemory>
    ensures { IfOk result (λ shares. shares.items ≡ map
        (λ r. if nat_eq r 0 then None else (M.meaning machine.now).file_of r)
        (range_with_len 0 32)) }
{
    let mut shares = Vec::with_capacity(alloc, 32)?;
    for r in 0..32u8 {
        shares.push(share_of(machine, Reg::new(r)))?;
    }
    Ok(shares)
}

/// The size of each file.
fn sizes_of<M: Machine>(alloc: Global, machine: &M) -> Result<Vec<u32>, NoMemory>
    ensures { let m = M.meaning machine.now in
        IfOk result (λ sizes. sizes.items ≡ map m.file_size (range_with_len 0 m.file_count)) }
{
    let count = machine.file_count();
    let mut sizes = Vec::with_capacity(alloc, count)?;
    for f in 0..count {
        sizes.push(machine.file_size(f))?;
    }
    Ok(sizes)
}
