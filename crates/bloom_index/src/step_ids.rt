//! One step over records that are known by their ids.
ghost use Rattle.std.specs.Prelude.{◌<◌, ◌∷◌, [], length, All};
ghost use Rattle.blz_pool.specs.Entries.{entries_with_ids};
ghost use Rattle.bloom_forms.specs.declared.module.Kind.TheVariants.{Input};
ghost use Rattle.bloom_forms.specs.Program.{columns_of_kind};
ghost use Rattle.bloom_forms.specs.Widths.{AreSetsOf};
ghost use Rattle.bloom_eval.specs.Arrivals.{timestep_of};
ghost use Rattle.bloom_index.specs.Code.Arriving.{arrived_in};
ghost use Rattle.bloom_index.specs.Code.Kept.{tables_in, PartsStand};
ghost use Rattle.bloom_index.specs.Code.Steps.{StepsTo};

use crate::arrived::Arrived;
use crate::puts::put_out;
use crate::step::{Parts, step};
use bloom_eval::{Puts, StepFault, timestep};
use bloom_forms::Checked;
use blz_pool::{Id, Pool};
use std::alloc::Global;

// One step over what arrives, which are the records of some entries.
fn step_arrived(
    alloc: Global,
    program: &Checked,
    parts: &mut Parts,
    pool: &Pool,
    now: &Arrived<'_>,
    entries: &[(u32, Id)],
    puts: &mut Puts,
) -> Result<(), StepFault>
    requires parts { PartsStand program.now parts.old }
    requires given { All (λ entry. entry.1 < length pool.now) entries.now }
    requires ports { AreSetsOf (columns_of_kind Input program.now.form.collections) (arrived_in now.now) }
    ensures { StepsTo program.now (tables_in program.now parts.old.rows.items) parts.new (arrived_in now.now) pool.now entries.now puts.new result }
{
    let held = step(alloc, program, parts, now)?;
    let written = program.module();
    let collections = written.collections.as_slice();
    put_out(alloc, collections, held, pool, entries, puts)?;
    Ok(())
}

// One step over the record of one entry.
fn step_one(
    alloc: Global,
    program: &Checked,
    parts: &mut Parts,
    pool: &Pool,
    ports: usize,
    entry: &(u32, Id),
    puts: &mut Puts,
) -> Result<(), StepFault>
    requires parts { PartsStand program.now parts.old }
    requires given { entry.now.1 < length pool.now }
    requires ports { AreSetsOf (columns_of_kind Input program.now.form.collections) (timestep_of ports (entries_with_ids pool.now (entry.now ∷ []))) }
    ensures { StepsTo program.now (tables_in program.now parts.old.rows.items) parts.new (timestep_of ports (entries_with_ids pool.now (entry.now ∷ []))) pool.now (entry.now ∷ []) puts.new result }
{
    let now = Arrived::One(ports, entry.0, pool.get(entry.1));
    step_arrived(alloc, program, parts, pool, &now, &[*entry], puts)
}

/// One step over the records with the ids of some entries, each at the port with its number: what is kept
/// becomes what is kept after it, and `puts` what it puts out, less rows which the tables of before already
/// give. After a fault nothing is said of what is kept.
pub(crate) fn step_by_ids(
    alloc: Global,
    program: &Checked,
    parts: &mut Parts,
    pool: &Pool,
    ports: usize,
    entries: &[(u32, Id)],
    puts: &mut Puts,
) -> Result<(), StepFault>
    requires parts { PartsStand program.now parts.old }
    requires given { All (λ entry. entry.1 < length pool.now) entries.now }
    requires ports { AreSetsOf (columns_of_kind Input program.now.form.collections) (timestep_of ports (entries_with_ids pool.now entries.now)) }
    ensures { StepsTo program.now (tables_in program.now parts.old.rows.items) parts.new (timestep_of ports (entries_with_ids pool.now entries.now)) pool.now entries.now puts.new result }
{
    if let [entry] = entries {
        return step_one(alloc, program, parts, pool, ports, entry, puts);
    }
    let now = timestep(alloc, pool, ports, entries)?;
    step_arrived(
        alloc,
        program,
        parts,
        pool,
        &Arrived::Sets(now.sets()),
        entries,
        puts,
    )
}
