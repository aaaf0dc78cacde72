//! What arrives in a step, by the ids of its records.
ghost use Rattle.std.specs.Prelude.{◌≡◌, ◌==◌, ◌<◌, ◌≤◌, ◌++◌, ◌∷◌, [], length, map, filter, All, IfOk, OnOk, if◌then◌else◌};
ghost use Rattle.blz_set.specs.RecordSet.{row_limit};
ghost use Rattle.blz_value.specs.Sets.{set_of};
ghost use Rattle.blz_pool.specs.Entries.{row_with_id, entries_with_ids};
ghost use Rattle.bloom_eval.specs.Arrivals.{timestep_of};

use crate::sets::Arrivals;
use blz_pool::{Id, Pool};
use blz_set::{RecordSet, SetFault};
use blz_value::Record;
use std::alloc::{AllocError, Global};

// Adds the record of an entry, where it is one at this port.
fn push_row(
    pool: &Pool,
    port: usize,
    entry: (u32, Id),
    rows: &mut Vec<Record>,
) -> Result<(), AllocError>
    requires { entry.1 < length pool.now }
    ensures { OnOk result (rows.new.items ≡ rows.old.items ++ (if entry.0 == port then row_with_id pool.now entry.1 ∷ [] else [])) }
{
    if entry.0 as usize == port {
        rows.push(pool.get(entry.1).copy()?)?;
    }
    Ok(())
}

// The records of some entries at a port.
#[tactic(auto, using(std::proofs::lemmas::Grind::common_steps, std::proofs::lemmas::List::take_more, crate::proofs::EntriesRead::rows_more))]
fn rows_at(
    alloc: Global,
    pool: &Pool,
    port: usize,
    entries: &[(u32, Id)],
) -> Result<Vec<Record>, AllocError>
    requires { All (λ entry. entry.1 < length pool.now) entries.now }
    ensures { IfOk result (λ rows. rows.items ≡ map (λ entry. entry.1) (filter (λ entry. entry.0 == port) (entries_with_ids pool.now entries.now))) }
{
    let mut rows = Vec::new(alloc);
    for entry in entries {
        push_row(pool, port, *entry, &mut rows)?;
    }
    Ok(rows)
}

// The set of some rows, of which not too many are distinct.
fn set_within(rows: Vec<Record>) -> Result<RecordSet, AllocError>
    requires { length (set_of rows.items) ≤ row_limit }
    ensures { IfOk result (λ set. set ≡ set_of rows.items) }
{
    match RecordSet::from_rows(rows) {
        Ok(set) => Ok(set),
        Err(SetFault::NoMemory) => Err(AllocError),
        Err(SetFault::TooManyRows) => unreachable!(),
    }
}

// The set of the records of some entries at a port.
fn set_at(
    alloc: Global,
    pool: &Pool,
    port: usize,
    entries: &[(u32, Id)],
) -> Result<RecordSet, AllocError>
    requires { All (λ entry. entry.1 < length pool.now) entries.now }
    ensures { IfOk result (λ set. set ≡ set_of (map (λ entry. entry.1) (filter (λ entry. entry.0 == port) (entries_with_ids pool.now entries.now)))) }
{
    let _few = pool.len();
    set_within(rows_at(alloc, pool, port, entries)?)
}

/// The timestep of some entries: one set for each port. A pool never has more records than a set may
/// have.
#[tactic(auto, using(std::proofs::lemmas::Grind::common_steps, blz_value::proofs::Ranges::map_below_more))]
pub fn timestep(
    alloc: Global,
    pool: &Pool,
    ports: usize,
    entries: &[(u32, Id)],
) -> Result<Arrivals, AllocError>
    requires { All (λ entry. entry.1 < length pool.now) entries.now }
    ensures { IfOk result (λ step. step ≡ timestep_of ports (entries_with_ids pool.now entries.now)) }
{
    let mut sets = Vec::with_capacity(alloc, ports)?;
    for port in 0..ports {
        sets.push(set_at(alloc, pool, port, entries)?)?;
    }
    Ok(Arrivals::from_sets(sets))
}
