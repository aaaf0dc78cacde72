//! The shell of Latest.
ghost use Rattle.std.specs.Prelude.{◌≡◌, ◌==◌, ◌≤◌, [], ◌∷◌, None, Err, length, IfOk, OnOk};
ghost use Rattle.std.specs.List.{list_any};
ghost use Rattle.std.specs.Option.{option_map, option_map_or};
ghost use Rattle.bloom_forms.specs.declared.program.Program.TheVariants.{Latest as LatestProgram};
ghost use Rattle.bloom_forms.specs.StockSteps.{keys_in_order};
ghost use Rattle.bloom_forms.specs.Program.{table_columns};
ghost use Rattle.bloom_forms.specs.ProgramStep.{tables_after_step, outputs_of_step};
ghost use Rattle.bloom_forms.specs.Step.{set_at};
ghost use Rattle.bloom_forms.specs.Widths.{AreWide, AreSetsOf, AreSetsOf-prop};
ghost use Rattle.bloom_eval.specs.StepAnswers.{AllFit, SomeIsOver};
ghost use Rattle.bloom_eval.specs.declared.fault.StepFault.TheVariants.{TooManyRows};
ghost use Rattle.bloom_eval.specs.declared.kind.ProgramKind.TheVariants.{Latest as LatestKind};
ghost use Rattle.blz_boxes.specs.Code.KeptRecords.{records_of};
ghost use Rattle.bloom_eval.specs.Step.{counted};

use crate::latest_table::LatestTable;
use crate::program::put_out;
use bloom_eval::{Arrivals, Component, Outs, StepFault};
use bloom_forms::Program;
use blz_set::RecordSet;
use blz_value::{Faithful, Items, Str};
use std::alloc::{AllocError, Global};

// A loaded Latest.
#[derive(Drop)]
struct LatestBody {
    columns: Items<Str>,
    keys: Items<u32>,
    table: LatestTable,
    ghost in_order: { table.columns.items ≡ keys_in_order (length columns) keys },
    ghost tables: { AreSetsOf (table_columns (LatestProgram columns keys)) (records_of table.records ∷ []) } by { AreSetsOf-prop (table_columns (LatestProgram columns keys)) (records_of table.records ∷ []) },
}

/// A shell of Latest, which keeps a record for each key.
#[derive(Drop)]
pub struct LatestShell {
    alloc: Global,
    body: Option<LatestBody>,
}

impl LatestShell {
    /// A shell without a program.
    pub fn new(alloc: Global) -> LatestShell
        ensures loaded { ⟦<LatestShell as Component>⟧.program result ≡ None }
        ensures kept { ⟦<LatestShell as Component>⟧.kept result ≡ [] }
    {
        LatestShell { alloc, body: None }
    }
}

fn is_key(keys: &[u32], column: u32) -> bool
    ensures { result ≡ list_any (λ key. key == column) keys.now }
{
    keys.iter().any(|key| *key == column)
}

// The keys among the first so many numbers, in their order.
fn keys_in_order(alloc: Global, count: usize, keys: &[u32]) -> Result<Vec<u32>, AllocError>
    requires { count ≤ 8 }
    ensures { IfOk result (λ columns. columns.items ≡ keys_in_order count keys.now) }
{
    let mut columns = Vec::new(alloc);
    for column in 0..count as u32 {
        if is_key(keys, column) {
            columns.push(column)?;
        }
    }
    Ok(columns)
}

impl LatestBody {
    // One step.
    fn step(&mut self, alloc: Global, now: &Arrivals, outs: &mut Outs) -> Result<(), StepFault>
        requires two { length now.now ≡ 2 }
        requires wide { AreWide (length self.old.columns) (set_at now.now 0) }
        ensures columns { self.new.columns ≡ self.old.columns }
        ensures keys { self.new.keys ≡ self.old.keys }
        ensures kept { OnOk result (records_of self.new.table.records ∷ [] ≡ tables_after_step (LatestProgram self.old.columns self.old.keys) (records_of self.old.table.records ∷ []) now.now) }
        ensures outs { OnOk result (outs.new ≡ outputs_of_step (LatestProgram self.old.columns self.old.keys) (records_of self.old.table.records ∷ []) now.now) }
        ensures few { OnOk result (AllFit (counted (LatestProgram self.old.columns self.old.keys) (records_of self.old.table.records ∷ []) now.now)) }
        ensures too_many { result ≡ Err TooManyRows → SomeIsOver (counted (LatestProgram self.old.columns self.old.keys) (records_of self.old.table.records ∷ []) now.now) }
    {
        let [put, ask] = now.sets() else {
            unreachable!()
        };
        self.table.put(put.rows())?;
        let out = self.table.asked(ask.rows())?;
        put_out(alloc, outs, out)?;
        Ok(())
    }
}

impl Component for LatestShell {
    ghost kind = { λ _. LatestKind };

    ghost program = { λ shell. option_map (λ body. LatestProgram body.columns body.keys) shell.body };

    ghost kept = { λ shell. option_map_or (λ body. records_of body.table.records ∷ []) shell.body [] };

    fn fits(&self, program: &Program) -> bool {
        matches!(program, Program::Latest { .. })
    }

    fn load(&mut self, program: &Program) -> Result<(), AllocError> {
        self.body = None;
        let Program::Latest { columns, keys } = program else {
            unreachable!()
        };
        let in_order = keys_in_order(self.alloc, columns.as_slice().len(), keys.as_slice())?;
        self.body = Some(LatestBody {
            columns: columns.copied()?,
            keys: keys.copied()?,
            table: LatestTable::new(self.alloc, in_order),
        });
        Ok(())
    }

    fn step(&mut self, now: &Arrivals, outs: &mut Outs) -> Result<(), StepFault> {
        let Some(body) = &mut self.body else {
            unreachable!()
        };
        body.step(self.alloc, now, outs)
    }

    fn kept_rows(&self, _table: u32, into: &mut RecordSet) -> Result<(), AllocError> {
        let Some(body) = &self.body else {
            unreachable!()
        };
        *into = body.table.rows()?;
        Ok(())
    }

    fn clear(&mut self) {
        if let Some(body) = &mut self.body {
            body.table.clear();
        }
    }
}
