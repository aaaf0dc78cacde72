//! A loaded module with what is kept.
ghost use Rattle.std.specs.Prelude.{◌≡◌, ◌<◌, ◌++◌, [], None, Some, Err, length, All, IfOk, IsSome, OnOk};
ghost use Rattle.blz_pool.specs.Entries.{entries_with_ids};
ghost use Rattle.bloom_forms.specs.declared.module.Kind.TheVariants.{Input, Table};
ghost use Rattle.bloom_forms.specs.declared.program.Program.TheVariants.{Module as ModuleProgram};
ghost use Rattle.bloom_forms.specs.Kinds.{kind_at, place_in_kind, of_kind};
ghost use Rattle.bloom_forms.specs.Program.{columns_of_kind};
ghost use Rattle.bloom_forms.specs.ProgramStep.{empty_tables};
ghost use Rattle.bloom_forms.specs.Step.{set_at, sets_of_kind, tables_after, outputs_of};
ghost use Rattle.bloom_forms.specs.Widths.{AreSetsOf};
ghost use Rattle.bloom_eval.specs.Arrivals.{timestep_of};
ghost use Rattle.bloom_eval.specs.Finish.{placed};
ghost use Rattle.bloom_eval.specs.Puts.{puts_in, ArePutOf};
ghost use Rattle.bloom_eval.specs.declared.fault.StepFault.TheVariants.{TooManyRows};
ghost use Rattle.bloom_eval.specs.StepAnswers.{AllFit, SomeIsOver, counted_sets};
ghost use Rattle.bloom_index.specs.Code.ByRows.{only_chooses};
ghost use Rattle.bloom_index.specs.Code.Kept.{tables_in, kept_tables, PartsStand, KeptStands, PutsOut};
ghost use Rattle.bloom_index.specs.Code.KeptProps.{KeptStands-prop};
ghost use Rattle.bloom_index.specs.Sides.{module_sides, side_rows};

use crate::arrived::Arrived;
use crate::by_rows::{only_chooses, put_by_rows};
use crate::empty::empty_parts;
use crate::grows::growing_heads;
use crate::places::collection_at;
use crate::sides::{side_at, side_count};
use crate::step::{Parts, step};
use crate::step_ids::step_by_ids;
use bloom_eval::{Arrivals, Kept, Outs, Puts, StepFault, step_plain};
use bloom_forms::{Checked, Collection, Kind};
use bloom_growth::GrowSet;
use blz_pool::{Id, Pool};
use blz_set::RecordSet;
use blz_value::{HashKey, Record};
use std::alloc::{AllocError, Global};

/// A module with what is kept of it, or with nothing kept.
#[derive(Drop)]
pub(crate) struct IndexBody {
    alloc: Global,
    program: Checked,
    sides: u32,
    // It keeps nothing and only chooses, so that one record steps by its rows.
    by_rows: bool,
    none: RecordSet,
    parts: Option<Parts>,
    ghost counted: { sides ≡ length (module_sides program.form) },
    ghost chosen: { by_rows ≡ only_chooses program.form },
    ghost empty: { none ≡ [] },
    ghost stands: { KeptStands program parts } by { KeptStands-prop program parts },
}

// Adds a copy of what a collection has, where it is a table.
fn push_table(
    alloc: Global,
    kind: Kind,
    rows: &GrowSet,
    tables: &mut Vec<RecordSet>,
) -> Result<(), AllocError>
    ensures { OnOk result (tables.new.items ≡ tables.old.items ++ placed Table kind rows.now) }
{
    if kind == Kind::Table {
        tables.push(rows.to_set(alloc)?)?;
    }
    Ok(())
}

// A copy of the tables.
fn copied_tables(
    alloc: Global,
    collections: &[Collection],
    parts: &Parts,
) -> Result<Kept, AllocError>
    requires { length parts.now.rows.items ≡ length collections.now }
    ensures { IfOk result (λ kept. kept ≡ sets_of_kind Table collections.now parts.now.rows.items) }
{
    let mut tables = Vec::new(alloc);
    for (i, collection) in collections.iter().enumerate() {
        push_table(alloc, collection.kind, &parts.rows[i], &mut tables)?;
    }
    Ok(Kept::from_sets(tables))
}

// The number of sides of a module.
fn sides_of(alloc: Global, program: &Checked) -> Result<u32, AllocError>
    ensures { IfOk result (λ sides. sides ≡ length (module_sides program.now.form)) }
{
    // For the proof: the module has no fault.
    let _written = program.module();
    let growing = growing_heads(alloc, program)?;
    side_count(program.rules(), &growing)
}

impl IndexBody {
    /// A module with nothing kept.
    pub(crate) fn new(alloc: Global, program: &Checked) -> Result<IndexBody, AllocError>
        ensures program { IfOk result (λ body. body.program ≡ program.now) }
        ensures kept { IfOk result (λ body. kept_tables body.program body.parts ≡ empty_tables (ModuleProgram program.now)) }
    {
        let sides = sides_of(alloc, program)?;
        let by_rows = only_chooses(program);
        let program = program.copy(alloc)?;
        Ok(IndexBody {
            alloc,
            program,
            sides,
            by_rows,
            none: RecordSet::new(alloc),
            parts: None,
        })
    }

    // Takes out what is kept, or where there is nothing makes it.
    fn taken(&mut self) -> Result<Parts, AllocError>
        ensures program { self.new.program ≡ self.old.program }
        ensures alloc { self.new.alloc ≡ self.old.alloc }
        ensures none { self.new.parts ≡ None }
        ensures stands { IfOk result (λ parts. PartsStand self.old.program parts) }
        ensures tables { IfOk result (λ parts. tables_in self.old.program parts.rows.items ≡ kept_tables self.old.program self.old.parts) }
    {
        match self.parts.take() {
            Some(parts) => Ok(parts),
            None => empty_parts(self.alloc, &self.program, HashKey::new()),
        }
    }

    // Makes what is kept where there is nothing; it hashes under a key.
    fn make_parts(&mut self, key: HashKey) -> Result<(), AllocError>
        ensures program { self.new.program ≡ self.old.program }
        ensures some { OnOk result (IsSome self.new.parts) }
        ensures kept { kept_tables self.new.program self.new.parts ≡ kept_tables self.old.program self.old.parts }
    {
        if self.parts.is_none() {
            self.parts = Some(empty_parts(self.alloc, &self.program, key)?);
        }
        Ok(())
    }

    // What a step puts out, evaluated plainly over a copy of the tables.
    fn all_outs(&self, parts: &Parts, now: &Arrivals) -> Result<Outs, StepFault>
        requires parts { PartsStand self.now.program parts.now }
        requires ports { AreSetsOf (columns_of_kind Input self.now.program.form.collections) now.now }
        ensures outs { IfOk result (λ outs. outs ≡ outputs_of self.now.program (tables_in self.now.program parts.now.rows.items) now.now) }
        ensures too_many { result ≡ Err TooManyRows → SomeIsOver (counted_sets self.now.program (tables_in self.now.program parts.now.rows.items) now.now) }
    {
        let collections = self.program.module().collections.as_slice();
        let mut tables = copied_tables(self.alloc, collections, parts)?;
        step_plain(self.alloc, &self.program, &mut tables, now)
    }

    /// One step, which puts out all and evaluates each rule anew for it. After a fault nothing is kept.
    pub(crate) fn step(&mut self, now: &Arrivals, outs: &mut Outs) -> Result<(), StepFault>
        requires ports { AreSetsOf (columns_of_kind Input self.old.program.form.collections) now.now }
        ensures program { self.new.program ≡ self.old.program }
        ensures kept { OnOk result (kept_tables self.new.program self.new.parts ≡ tables_after self.old.program (kept_tables self.old.program self.old.parts) now.now) }
        ensures outs { OnOk result (outs.new ≡ outputs_of self.old.program (kept_tables self.old.program self.old.parts) now.now) }
        ensures few { OnOk result (AllFit (counted_sets self.old.program (kept_tables self.old.program self.old.parts) now.now)) }
        ensures too_many { result ≡ Err TooManyRows → SomeIsOver (counted_sets self.old.program (kept_tables self.old.program self.old.parts) now.now) }
        ensures wide { AreSetsOf (columns_of_kind Table self.new.program.form.collections) (kept_tables self.new.program self.new.parts) }
    {
        let mut parts = self.taken()?;
        *outs = self.all_outs(&parts, now)?;
        let _held = step(
            self.alloc,
            &self.program,
            &mut parts,
            &Arrived::Sets(now.sets()),
        )?;
        self.parts = Some(parts);
        Ok(())
    }

    // One step over the records with the ids of some entries, over what is kept. What is kept hashes under
    // the key of the pool of the first step. After a fault nothing is kept.
    fn step_parts(
        &mut self,
        pool: &Pool,
        ports: usize,
        entries: &[(u32, Id)],
        puts: &mut Puts,
    ) -> Result<(), StepFault>
        requires given { All (λ entry. entry.1 < length pool.now) entries.now }
        requires ports { AreSetsOf (columns_of_kind Input self.old.program.form.collections) (timestep_of ports (entries_with_ids pool.now entries.now)) }
        ensures program { self.new.program ≡ self.old.program }
        ensures kept { OnOk result (kept_tables self.new.program self.new.parts ≡ tables_after self.old.program (kept_tables self.old.program self.old.parts) (timestep_of ports (entries_with_ids pool.now entries.now))) }
        ensures outs { OnOk result (PutsOut self.old.program (kept_tables self.old.program self.old.parts) (timestep_of ports (entries_with_ids pool.now entries.now)) (puts_in pool.now puts.new)) }
        ensures ids { OnOk result (ArePutOf entries.now puts.new) }
        ensures few { OnOk result (AllFit (counted_sets self.old.program (kept_tables self.old.program self.old.parts) (timestep_of ports (entries_with_ids pool.now entries.now)))) }
        ensures too_many { result ≡ Err TooManyRows → SomeIsOver (counted_sets self.old.program (kept_tables self.old.program self.old.parts) (timestep_of ports (entries_with_ids pool.now entries.now))) }
        ensures wide { AreSetsOf (columns_of_kind Table self.new.program.form.collections) (kept_tables self.new.program self.new.parts) }
    {
        self.make_parts(pool.key())?;
        let Some(parts) = &mut self.parts else {
            unreachable!()
        };
        let done = step_by_ids(self.alloc, &self.program, parts, pool, ports, entries, puts);
        if let Err(fault) = done {
            self.parts = None;
            return Err(fault);
        }
        Ok(())
    }

    /// One step over the records with the ids of some entries, each at the port with its number, which may
    /// leave out what the tables of before already give. What is kept hashes under the key of the pool of
    /// the first step. After a fault nothing is kept.
    pub(crate) fn step_by_ids(
        &mut self,
        pool: &Pool,
        ports: usize,
        entries: &[(u32, Id)],
        puts: &mut Puts,
    ) -> Result<(), StepFault>
        requires given { All (λ entry. entry.1 < length pool.now) entries.now }
        requires ports { AreSetsOf (columns_of_kind Input self.old.program.form.collections) (timestep_of ports (entries_with_ids pool.now entries.now)) }
        ensures program { self.new.program ≡ self.old.program }
        ensures kept { OnOk result (kept_tables self.new.program self.new.parts ≡ tables_after self.old.program (kept_tables self.old.program self.old.parts) (timestep_of ports (entries_with_ids pool.now entries.now))) }
        ensures outs { OnOk result (PutsOut self.old.program (kept_tables self.old.program self.old.parts) (timestep_of ports (entries_with_ids pool.now entries.now)) (puts_in pool.now puts.new)) }
        ensures ids { OnOk result (ArePutOf entries.now puts.new) }
        ensures few { OnOk result (AllFit (counted_sets self.old.program (kept_tables self.old.program self.old.parts) (timestep_of ports (entries_with_ids pool.now entries.now)))) }
        ensures too_many { result ≡ Err TooManyRows → SomeIsOver (counted_sets self.old.program (kept_tables self.old.program self.old.parts) (timestep_of ports (entries_with_ids pool.now entries.now))) }
        ensures wide { AreSetsOf (columns_of_kind Table self.new.program.form.collections) (kept_tables self.new.program self.new.parts) }
    {
        match entries {
            [entry] if self.by_rows && (entry.0 as usize) < ports => {
                put_by_rows(self.alloc, &self.program, pool, ports, entry, puts)?;
                Ok(())
            }
            _ => self.step_parts(pool, ports, entries, puts),
        }
    }

    /// The rows of a table.
    pub(crate) fn table(&self, table: u32) -> Result<RecordSet, AllocError>
        requires { table < length (kept_tables self.now.program self.now.parts) }
        ensures { IfOk result (λ set. set ≡ set_at (kept_tables self.now.program self.now.parts) table) }
    {
        let Some(parts) = &self.parts else {
            return Ok(RecordSet::new(self.alloc));
        };
        let collections = self.program.module().collections.as_slice();
        let number = collection_at(collections, Kind::Table, table);
        parts.rows[number].to_set(self.alloc)
    }

    /// Forgets all rows.
    pub(crate) fn clear(&mut self)
        ensures program { self.new.program ≡ self.old.program }
        ensures kept { kept_tables self.new.program self.new.parts ≡ empty_tables (ModuleProgram self.old.program) }
    {
        self.parts = None;
    }

    /// The number of sides.
    pub(crate) fn sides(&self) -> u32
        ensures { result ≡ length (module_sides self.now.program.form) }
    {
        self.sides
    }

    /// The rows of a side with a key.
    pub(crate) fn side(&self, side: u32, key: &Record) -> &RecordSet
        requires { side < length (module_sides self.now.program.form) }
        ensures { result.now ≡ side_rows (Some (ModuleProgram self.now.program)) (kept_tables self.now.program self.now.parts) side key.now }
    {
        match &self.parts {
            Some(parts) => {
                // For the proof: the module has no fault.
                let _written = self.program.module();
                side_at(&parts.plans, side).at(key)
            }
            None => &self.none,
        }
    }
}
