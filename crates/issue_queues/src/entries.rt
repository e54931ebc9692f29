//! The entries of buffers that a row holds: one of each resource that it names, however often it names it.
ghost use Rattle.std.specs.Prelude.{◌≡◌, ℕ, ◌+◌, ◌-◌, ◌<◌, ◌≤◌, ◌^◌, length, take, false, slice_index, slice_index_or, true, ◌||◌, nat_eq, nat_lt, ◌&&◌, not, if◌then◌else◌};
ghost use Rattle.std.specs.List.{list_all, list_any};
ghost use Rattle.machine_model.specs.Valid.{no_use};
ghost use Rattle.cycle_rules.specs.Dispatch.{has_room};
ghost use Rattle.issue_queues.specs.Waiting.{name_one};

use cycle_rules::Bound;
use machine_model::Use;

// The uses that count.
pub fn uses_of(b: &Bound) -> &[Use]
    requires { b.now.use_count ≤ 8 }
    ensures { result.now ≡ take b.now.use_count b.now.uses }
{
    &b.uses[..b.use_count as usize]
}

// A bound, of which 0 means none, leaves room for one more.
#[tactic(auto, unfolding(cycle_rules::specs::Dispatch::has_room))]
fn has_room(bound: u32, held: u32) -> bool
    ensures { result ≡ has_room bound held }
{
    bound == 0 || held < bound
}

// Each resource that is named has an entry free.
pub fn have_room(bounds: &[u32], held: &[u32], uses: &[Use]) -> bool
    requires size { length held.now ≡ length bounds.now }
    requires within { (i : ℕ) → i < length uses.now
        → (slice_index_or uses.now i no_use).resource < length bounds.now }
    ensures { result ≡ list_all (λ w. has_room (slice_index bounds.now w.resource)
        (slice_index held.now w.resource)) uses.now }
{
    for w in uses {
        let r = w.resource as usize;
        if !has_room(bounds[r], held[r]) {
            return false;
        }
    }
    true
}

// A resource is named.
fn is_named(uses: &[Use], resource: u8) -> bool
    ensures { result ≡ name_one resource uses.now }
{
    uses.iter().any(|w| w.resource == resource)
}

// One entry more of a resource that no use before names.
fn take_entry(held: &mut [u32], before: &[Use], resource: u8)
    requires within { resource < length held.old }
    requires fits { name_one resource before.now ≡ false → slice_index held.old resource + 1 < 2 ^ 32 }
    ensures { (r : ℕ) → r < length held.old → slice_index held.new r ≡ slice_index held.old r
        + (if nat_eq resource r && not (name_one resource before.now) then 1 else 0) }
{
    if !is_named(before, resource) {
        held[resource as usize] += 1;
    }
}

// One entry less of a resource that no use before names.
fn free_entry(held: &mut [u32], before: &[Use], resource: u8)
    requires within { resource < length held.old }
    requires taken { name_one resource before.now ≡ false → 0 < slice_index held.old resource }
    ensures { (r : ℕ) → r < length held.old → slice_index held.new r
        + (if nat_eq resource r && not (name_one resource before.now) then 1 else 0)
        ≡ slice_index held.old r }
{
    if !is_named(before, resource) {
        held[resource as usize] -= 1;
    }
}

// One entry more of each resource that is named.
pub fn take_entries(held: &mut [u32], uses: &[Use])
    requires within { (i : ℕ) → i < length uses.now
        → (slice_index_or uses.now i no_use).resource < length held.old }
    requires fits { (r : ℕ) → r < length held.old → slice_index held.old r + 1 < 2 ^ 32 }
    ensures { (r : ℕ) → r < length held.old → slice_index held.new r
        ≡ slice_index held.old r + (if name_one r uses.now then 1 else 0) }
{
    for k in 0..uses.len() {
        let resource = uses[k].resource;
        take_entry(held, &uses[..k], resource);
    }
}

// One entry less of each resource that is named.
pub fn free_entries(held: &mut [u32], uses: &[Use])
    requires within { (i : ℕ) → i < length uses.now
        → (slice_index_or uses.now i no_use).resource < length held.old }
    requires taken { (r : ℕ) → r < length held.old → name_one r uses.now ≡ true → 0 < slice_index held.old r }
    ensures { (r : ℕ) → r < length held.old → slice_index held.new r
        + (if name_one r uses.now then 1 else 0) ≡ slice_index held.old r }
{
    for k in 0..uses.len() {
        let resource = uses[k].resource;
        free_entry(held, &uses[..k], resource);
    }
}
