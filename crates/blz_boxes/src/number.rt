//! The shell of Number.
ghost use Rattle.std.specs.Prelude.{◌≡◌, [], ◌∷◌, None, Err, length, OnOk};
ghost use Rattle.std.specs.Option.{option_map, option_map_or};
ghost use Rattle.bloom_forms.specs.declared.program.Program.TheVariants.{Number as NumberProgram};
ghost use Rattle.bloom_forms.specs.Program.{table_columns};
ghost use Rattle.bloom_forms.specs.ProgramStep.{tables_after_step, outputs_of_step};
ghost use Rattle.bloom_forms.specs.Step.{set_at};
ghost use Rattle.bloom_forms.specs.Widths.{AreWide, AreSetsOf, AreSetsOf-prop};
ghost use Rattle.bloom_eval.specs.StepAnswers.{AllFit, SomeIsOver};
ghost use Rattle.bloom_eval.specs.declared.fault.StepFault.TheVariants.{TooManyRows};
ghost use Rattle.bloom_eval.specs.declared.kind.ProgramKind.TheVariants.{Number as NumberKind};
ghost use Rattle.blz_boxes.specs.Code.Numbers.{numbered_records};
ghost use Rattle.bloom_eval.specs.Step.{counted};

use crate::number_table::NumberTable;
use crate::program::put_out;
use bloom_eval::{Arrivals, Component, Outs, StepFault};
use bloom_forms::Program;
use blz_set::RecordSet;
use blz_value::{Faithful, Items, Str};
use std::alloc::{AllocError, Global};

// A loaded Number.
#[derive(Drop)]
struct NumberBody {
    columns: Items<Str>,
    table: NumberTable,
    ghost tables: { AreSetsOf (table_columns (NumberProgram columns)) (numbered_records table.numbers ∷ []) } by { AreSetsOf-prop (table_columns (NumberProgram columns)) (numbered_records table.numbers ∷ []) },
}

/// A shell of Number, which keeps each record with its number.
#[derive(Drop)]
pub struct NumberShell {
    alloc: Global,
    body: Option<NumberBody>,
}

impl NumberShell {
    /// A shell without a program.
    pub fn new(alloc: Global) -> NumberShell
        ensures loaded { ⟦<NumberShell as Component>⟧.program result ≡ None }
        ensures kept { ⟦<NumberShell as Component>⟧.kept result ≡ [] }
    {
        NumberShell { alloc, body: None }
    }
}

impl NumberBody {
    // One step.
    fn step(&mut self, alloc: Global, now: &Arrivals, outs: &mut Outs) -> Result<(), StepFault>
        requires one { length now.now ≡ 1 }
        requires wide { AreWide (length self.old.columns) (set_at now.now 0) }
        ensures columns { self.new.columns ≡ self.old.columns }
        ensures kept { OnOk result (numbered_records self.new.table.numbers ∷ [] ≡ tables_after_step (NumberProgram self.old.columns) (numbered_records self.old.table.numbers ∷ []) now.now) }
        ensures outs { OnOk result (outs.new ≡ outputs_of_step (NumberProgram self.old.columns) (numbered_records self.old.table.numbers ∷ []) now.now) }
        ensures few { OnOk result (AllFit (counted (NumberProgram self.old.columns) (numbered_records self.old.table.numbers ∷ []) now.now)) }
        ensures too_many { result ≡ Err TooManyRows → SomeIsOver (counted (NumberProgram self.old.columns) (numbered_records self.old.table.numbers ∷ []) now.now) }
    {
        let [arriving] = now.sets() else {
            unreachable!()
        };
        let out = self.table.number(arriving.rows())?;
        put_out(alloc, outs, out)?;
        Ok(())
    }
}

impl Component for NumberShell {
    ghost kind = { λ _. NumberKind };

    ghost program = { λ shell. option_map (λ body. NumberProgram body.columns) shell.body };

    ghost kept = { λ shell. option_map_or (λ body. numbered_records body.table.numbers ∷ []) shell.body [] };

    fn fits(&self, program: &Program) -> bool {
        matches!(program, Program::Number { .. })
    }

    fn load(&mut self, program: &Program) -> Result<(), AllocError> {
        self.body = None;
        let Program::Number { columns } = program else {
            unreachable!()
        };
        self.body = Some(NumberBody {
            columns: columns.copied()?,
            table: NumberTable::new(self.alloc),
        });
        Ok(())
    }

    fn step(&mut self, now: &Arrivals, outs: &mut Outs) -> Result<(), StepFault> {
        let Some(body) = &mut self.body else {
            unreachable!()
        };
        body.step(self.alloc, now, outs)
    }

    fn kept_rows(&self, _table: u32, into: &mut RecordSet) -> Result<(), AllocError> {
        let Some(body) = &self.body else {
            unreachable!()
        };
        *into = body.table.rows()?;
        Ok(())
    }

    fn clear(&mut self) {
        if let Some(body) = &mut self.body {
            body.table.clear();
        }
    }
}
