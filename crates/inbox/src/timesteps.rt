//! What a batch sets off, as timesteps: read in the pool that gave its ids.
ghost use Rattle.std.specs.Prelude.{◌≡◌, ◌<◌, ◌++◌, All, IfOk, OnOk, length};
ghost use Rattle.blz_pool.specs.Entries.{entries_with_ids};
ghost use Rattle.inbox.specs.SetOffs.{AreGivenTo, AreReleasedFrom, released_read, set_off_read};
ghost use Rattle.inbox.specs.Timesteps.{one_by_one, one_timestep};

use crate::set_off::{Released, SetOffIds};
use bloom_eval::{Arrivals, timestep};
use blz_pool::{Id, Pool};
use blz_value::{Items, Record};
use std::alloc::{AllocError, Global};

/// What a batch sets off: its timesteps, and the keys of the partitions that it completes, in the
/// order of key values.
#[derive(Drop)]
pub struct Timesteps {
    pub steps: Items<Arrivals>,
    pub whole: Items<Record>,
}

// Adds a timestep for each of some entries.
fn push_one_by_one(
    alloc: Global,
    pool: &Pool,
    ports: usize,
    entries: &[(u32, Id)],
    steps: &mut Vec<Arrivals>,
) -> Result<(), AllocError>
    requires { All (λ entry. entry.1 < length pool.now) entries.now }
    ensures { OnOk result (steps.new.items ≡ steps.old.items ++ one_by_one ports (entries_with_ids pool.now entries.now)) }
{
    for entry in entries {
        steps.push(timestep(alloc, pool, ports, &[*entry])?)?;
    }
    Ok(())
}

// Adds the timesteps of what partitions release, where they do.
fn push_released(
    alloc: Global,
    pool: &Pool,
    ports: usize,
    released: &Option<Released>,
    steps: &mut Vec<Arrivals>,
) -> Result<(), AllocError>
    requires { AreReleasedFrom pool.now released.now }
    ensures { OnOk result (steps.new.items ≡ steps.old.items ++ released_read pool.now ports released.now) }
{
    let Some(released) = released else {
        return Ok(());
    };
    steps.push(timestep(alloc, pool, ports, &released.together)?)?;
    push_one_by_one(alloc, pool, ports, &released.alone, steps)
}

// Adds the timestep of what goes with a batch, where something does.
fn push_going(
    alloc: Global,
    pool: &Pool,
    ports: usize,
    entries: &[(u32, Id)],
    steps: &mut Vec<Arrivals>,
) -> Result<(), AllocError>
    requires { All (λ entry. entry.1 < length pool.now) entries.now }
    ensures { OnOk result (steps.new.items ≡ steps.old.items ++ one_timestep ports (entries_with_ids pool.now entries.now)) }
{
    if let [_, ..] = entries {
        steps.push(timestep(alloc, pool, ports, entries)?)?;
    }
    Ok(())
}

/// The timesteps of what is set off by ids that the pool gave, with copies of its records. The error
/// is want of memory.
pub(crate) fn timesteps_of(
    alloc: Global,
    pool: &Pool,
    set: SetOffIds,
) -> Result<Timesteps, AllocError>
    requires { AreGivenTo pool.now set }
    ensures steps { IfOk result (λ read. read.steps ≡ (set_off_read pool.now set).steps) }
    ensures whole { IfOk result (λ read. read.whole ≡ set.whole) }
{
    let mut steps = Vec::new(alloc);
    push_released(alloc, pool, set.ports, &set.released, &mut steps)?;
    push_going(alloc, pool, set.ports, set.going.as_slice(), &mut steps)?;
    Ok(Timesteps {
        steps: Items::from_vec(steps),
        whole: set.whole,
    })
}
