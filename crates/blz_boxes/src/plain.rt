//! The shell of modules.
ghost use Rattle.std.specs.Prelude.{◌≡◌, [], None, Err, map, IfOk, OnOk};
ghost use Rattle.std.specs.Option.{option_map, option_map_or};
ghost use Rattle.bloom_forms.specs.declared.module.Kind.TheVariants.{Input, Table};
ghost use Rattle.bloom_forms.specs.declared.program.Program.TheVariants.{Module as ModuleProgram};
ghost use Rattle.bloom_forms.specs.Program.{columns_of_kind};
ghost use Rattle.bloom_forms.specs.ProgramStep.{tables_after_step, outputs_of_step};
ghost use Rattle.bloom_eval.specs.StepAnswers.{AllFit, SomeIsOver};
ghost use Rattle.bloom_forms.specs.Widths.{AreSetsOf, AreSetsOf-prop};
ghost use Rattle.bloom_eval.specs.declared.fault.StepFault.TheVariants.{TooManyRows};
ghost use Rattle.bloom_eval.specs.Step.{counted};
ghost use Rattle.bloom_eval.specs.declared.kind.ProgramKind.TheVariants.{Module as ModuleKind};

use bloom_eval::{Arrivals, Component, Kept, Outs, StepFault, step_plain};
use bloom_forms::{Checked, Collection, Kind, Program};
use blz_set::RecordSet;
use std::alloc::{AllocError, Global};

// A loaded module, with its tables.
#[derive(Drop)]
struct PlainBody {
    program: Checked,
    kept: Kept,
    ghost tables: { AreSetsOf (columns_of_kind Table program.form.collections) kept } by { AreSetsOf-prop (columns_of_kind Table program.form.collections) kept },
}

/// A shell of modules, which evaluates each rule anew in each step.
#[derive(Drop)]
pub struct PlainShell {
    alloc: Global,
    body: Option<PlainBody>,
}

impl PlainShell {
    /// A shell without a program.
    pub fn new(alloc: Global) -> PlainShell
        ensures loaded { ⟦<PlainShell as Component>⟧.program result ≡ None }
        ensures kept { ⟦<PlainShell as Component>⟧.kept result ≡ [] }
    {
        PlainShell { alloc, body: None }
    }
}

// One empty set for each table.
fn empty_tables(alloc: Global, collections: &[Collection]) -> Result<Kept, AllocError>
    ensures { IfOk result (λ kept. kept ≡ map (λ columns. []) (columns_of_kind Table collections.now)) }
{
    let mut sets = Vec::new(alloc);
    for collection in collections {
        if collection.kind == Kind::Table {
            sets.push(RecordSet::new(alloc))?;
        }
    }
    Ok(Kept::from_sets(sets))
}

impl PlainBody {
    fn new(alloc: Global, program: &Checked) -> Result<PlainBody, AllocError>
        ensures program { IfOk result (λ body. body.program ≡ program.now) }
        ensures kept { IfOk result (λ body. body.kept ≡ map (λ columns. []) (columns_of_kind Table program.now.form.collections)) }
    {
        let kept = empty_tables(alloc, program.module().collections.as_slice())?;
        Ok(PlainBody {
            program: program.copy(alloc)?,
            kept,
        })
    }

    // One step.
    fn step(&mut self, alloc: Global, now: &Arrivals, outs: &mut Outs) -> Result<(), StepFault>
        requires ports { AreSetsOf (columns_of_kind Input self.old.program.form.collections) now.now }
        ensures program { self.new.program ≡ self.old.program }
        ensures kept { OnOk result (self.new.kept ≡ tables_after_step (ModuleProgram self.old.program) self.old.kept now.now) }
        ensures outs { OnOk result (outs.new ≡ outputs_of_step (ModuleProgram self.old.program) self.old.kept now.now) }
        ensures few { OnOk result (AllFit (counted (ModuleProgram self.old.program) self.old.kept now.now)) }
        ensures too_many { result ≡ Err TooManyRows → SomeIsOver (counted (ModuleProgram self.old.program) self.old.kept now.now) }
    {
        *outs = step_plain(alloc, &self.program, &mut self.kept, now)?;
        Ok(())
    }

    fn clear(&mut self, alloc: Global)
        ensures program { self.new.program ≡ self.old.program }
        ensures kept { self.new.kept ≡ map (λ columns. []) (columns_of_kind Table self.old.program.form.collections) }
    {
        self.kept.clear(alloc);
    }
}

impl Component for PlainShell {
    ghost kind = { λ _. ModuleKind };

    ghost program = { λ shell. option_map (λ body. ModuleProgram body.program) shell.body };

    ghost kept = { λ shell. option_map_or (λ body. body.kept) shell.body [] };

    fn fits(&self, program: &Program) -> bool {
        matches!(program, Program::Module(_))
    }

    fn load(&mut self, program: &Program) -> Result<(), AllocError> {
        self.body = None;
        let Program::Module(checked) = program else {
            unreachable!()
        };
        self.body = Some(PlainBody::new(self.alloc, checked)?);
        Ok(())
    }

    fn step(&mut self, now: &Arrivals, outs: &mut Outs) -> Result<(), StepFault> {
        let Some(body) = &mut self.body else {
            unreachable!()
        };
        body.step(self.alloc, now, outs)
    }

    fn kept_rows(&self, table: u32, into: &mut RecordSet) -> Result<(), AllocError> {
        let Some(body) = &self.body else {
            unreachable!()
        };
        *into = body.kept.sets()[table as usize].copy()?;
        Ok(())
    }

    fn clear(&mut self) {
        if let Some(body) = &mut self.body {
            body.clear(self.alloc);
        }
    }
}
