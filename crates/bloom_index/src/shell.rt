//! The shell of modules that keeps indexes.
ghost use Rattle.std.specs.Prelude.{◌≡◌, ◌<◌, [], None, length, IsSome};
ghost use Rattle.std.specs.Option.{option_map, option_map_or};
ghost use Rattle.bloom_forms.specs.declared.program.Program.TheVariants.{Module as ModuleProgram};
ghost use Rattle.bloom_index.specs.Code.Kept.{kept_tables};
ghost use Rattle.bloom_index.specs.Sides.{sides_of, side_rows};
ghost use Rattle.bloom_eval.specs.declared.kind.ProgramKind.TheVariants.{Module as ModuleKind};

use crate::body::IndexBody;
use bloom_eval::{Arrivals, Component, Outs, Puts, StepFault};
use bloom_forms::Program;
use blz_pool::{Id, Pool};
use blz_set::RecordSet;
use blz_value::Record;
use std::alloc::{AllocError, Global};

/// A shell of modules, whose steps cost what changes.
#[derive(Drop)]
pub struct IndexShell {
    alloc: Global,
    body: Option<IndexBody>,
}

impl IndexShell {
    /// A shell without a program.
    pub fn new(alloc: Global) -> IndexShell
        ensures loaded { ⟦<IndexShell as Component>⟧.program result ≡ None }
        ensures kept { ⟦<IndexShell as Component>⟧.kept result ≡ [] }
    {
        IndexShell { alloc, body: None }
    }

    /// How many sides the program has: parts that grow and stand in a join, or on the right of a notin.
    pub fn sides(&self) -> u32
        requires program { IsSome (⟦<IndexShell as Component>⟧.program self.now) }
        ensures { result ≡ length (sides_of (⟦<IndexShell as Component>⟧.program self.now)) }
    {
        let Some(body) = &self.body else {
            unreachable!()
        };
        body.sides()
    }

    /// The rows of a side, over what is kept, with these values in the columns that its join or notin
    /// equates, in the order of the pairs. Sides are numbered from 0, in the order in which the text of the
    /// module has them.
    pub fn side(&self, side: u32, key: &Record) -> &RecordSet
        requires program { IsSome (⟦<IndexShell as Component>⟧.program self.now) }
        requires within { side < length (sides_of (⟦<IndexShell as Component>⟧.program self.now)) }
        ensures { result.now ≡ side_rows (⟦<IndexShell as Component>⟧.program self.now) (⟦<IndexShell as Component>⟧.kept self.now) side key.now }
    {
        let Some(body) = &self.body else {
            unreachable!()
        };
        body.side(side, key)
    }
}

impl Component for IndexShell {
    ghost kind = { λ _. ModuleKind };

    ghost program = { λ shell. option_map (λ body. ModuleProgram body.program) shell.body };

    ghost kept = { λ shell. option_map_or (λ body. kept_tables body.program body.parts) shell.body [] };

    fn fits(&self, program: &Program) -> bool {
        matches!(program, Program::Module(_))
    }

    fn load(&mut self, program: &Program) -> Result<(), AllocError> {
        self.body = None;
        let Program::Module(checked) = program else {
            unreachable!()
        };
        self.body = Some(IndexBody::new(self.alloc, checked)?);
        Ok(())
    }

    fn step(&mut self, now: &Arrivals, outs: &mut Outs) -> Result<(), StepFault> {
        let Some(body) = &mut self.body else {
            unreachable!()
        };
        body.step(now, outs)
    }

    fn step_by_ids(
        &mut self,
        _alloc: Global,
        pool: &Pool,
        ports: usize,
        entries: &[(u32, Id)],
        puts: &mut Puts,
    ) -> Result<(), StepFault> {
        let Some(body) = &mut self.body else {
            unreachable!()
        };
        body.step_by_ids(pool, ports, entries, puts)
    }

    fn kept_rows(&self, table: u32, into: &mut RecordSet) -> Result<(), AllocError> {
        let Some(body) = &self.body else {
            unreachable!()
        };
        *into = body.table(table)?;
        Ok(())
    }

    fn clear(&mut self) {
        if let Some(body) = &mut self.body {
            body.clear();
        }
    }
}
