//! The buffers and the names of a table's resources.
ghost use Rattle.std.specs.Prelude.{◌≡◌, map, All, IfOk, pos, neg_ℤ, int_le, true};
ghost use Rattle.sched_validate.specs.Buffers.{IsBuffered};

use mca_fixed::{Items, MOST_ENTRIES, NoMemory, Text};
use sched_resolve::Resource;
use std::alloc::Global;

/// The buffer of a resource.
fn buffer(resource: &Resource) -> i32
    requires { IsBuffered resource.now }
    ensures { result ≡ resource.now.buffer }
{
    if resource.buffer < -1 || resource.buffer > MOST_ENTRIES as i64 {
        return 0;
    }
    resource.buffer as i32
}

/// The buffers of the resources.
pub(crate) fn buffers(alloc: Global, resources: &[&Resource]) -> Result<Items<i32>, NoMemory>
    requires { All (λ r. IsBuffered r.now) resources.now }
    ensures { IfOk result (λ buffers. buffers ≡ map (λ r. r.now.buffer) resources.now) }
{
    let mut buffers = Vec::with_capacity(alloc, resources.len())?;
    for resource in resources {
        buffers.push(buffer(resource))?;
    }
    Ok(Items::from_vec(buffers))
}

/// The names of the resources.
pub(crate) fn names(alloc: Global, resources: &[&Resource]) -> Result<Items<Text>, NoMemory>
    ensures { IfOk result (λ names. names ≡ map (λ r. r.now.name) resources.now) }
{
    let mut names = Vec::with_capacity(alloc, resources.len())?;
    for resource in resources {
        names.push(Text::from_string(String::from_str(alloc, resource.name.as_str())?))?;
    }
    Ok(Items::from_vec(names))
}
