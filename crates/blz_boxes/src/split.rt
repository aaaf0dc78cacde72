//! The shell of Split.
ghost use Rattle.std.specs.Prelude.{◌≡◌, [], None, OnOk, OnErr};
ghost use Rattle.std.specs.Option.{option_map};
ghost use Rattle.bloom_forms.specs.declared.program.Program.TheVariants.{Split as SplitProgram};
ghost use Rattle.bloom_eval.specs.declared.kind.ProgramKind.TheVariants.{Split as SplitKind};

use crate::program::put_out;
use crate::words::split_rows;
use bloom_eval::{Arrivals, Component, Outs, StepFault};
use bloom_forms::Program;
use blz_set::RecordSet;
use blz_value::{Faithful, Items, Str};
use std::alloc::{AllocError, Global};

// A loaded Split.
#[derive(Drop)]
struct SplitBody {
    columns: Items<Str>,
    split: u32,
}

/// A shell of Split, which keeps nothing.
#[derive(Drop)]
pub struct SplitShell {
    alloc: Global,
    body: Option<SplitBody>,
}

impl SplitShell {
    /// A shell without a program.
    pub fn new(alloc: Global) -> SplitShell
        ensures loaded { ⟦<SplitShell as Component>⟧.program result ≡ None }
        ensures kept { ⟦<SplitShell as Component>⟧.kept result ≡ [] }
    {
        SplitShell { alloc, body: None }
    }
}

impl Component for SplitShell {
    ghost kind = { λ _. SplitKind };

    ghost program = { λ shell. option_map (λ body. SplitProgram body.columns body.split) shell.body };

    ghost kept = { λ _. [] };

    fn fits(&self, program: &Program) -> bool {
        matches!(program, Program::Split { .. })
    }

    fn load(&mut self, program: &Program) -> Result<(), AllocError> {
        self.body = None;
        let Program::Split { columns, split } = program else {
            unreachable!()
        };
        self.body = Some(SplitBody {
            columns: columns.copied()?,
            split: *split,
        });
        Ok(())
    }

    fn step(&mut self, now: &Arrivals, outs: &mut Outs) -> Result<(), StepFault> {
        let Some(body) = &self.body else {
            unreachable!()
        };
        let [arriving] = now.sets() else {
            unreachable!()
        };
        let rows = split_rows(self.alloc, arriving.rows(), body.split)?;
        put_out(self.alloc, outs, RecordSet::from_rows(rows)?)?;
        Ok(())
    }

    fn kept_rows(&self, _table: u32, into: &mut RecordSet) -> Result<(), AllocError>
        ensures ok { OnOk result (into.new ≡ []) }
        ensures err { OnErr result (into.new ≡ into.old) }
    {
        *into = RecordSet::new(self.alloc);
        Ok(())
    }

    fn clear(&mut self) {}
}
