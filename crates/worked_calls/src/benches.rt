//! Two shells that the program hasn't: one that tells what it kept, and one that has no memory.
ghost use Rattle.std.specs.Prelude.{◌≡◌, [], None, IsSome};
ghost use Rattle.bloom_eval.specs.declared.kind.ProgramKind.TheVariants.{Latest as LatestKind};

use bloom_ast::Program;
use bloom_eval::{Arrivals, Outs, StepFault};
use blz_boxes::{Component, LatestShell};
use blz_set::RecordSet;
use blz_value::{Record, Value};
use std::alloc::{AllocError, Global};

// Whether a record is the second put of the word `a`.
fn is_second_put(row: &Record) -> bool {
    match row.values() {
        [Value::Text(word), Value::Int(count)] => word.as_str() == "a" && *count == 2,
        _ => false,
    }
}

// Whether a loaded shell of Latest keeps the second put of the word `a` alone.
fn keeps_second_put(alloc: Global, shell: &LatestShell) -> Result<bool, AllocError>
    requires { IsSome (⟦<LatestShell as Component>⟧.program shell.now) }
{
    let mut rows = RecordSet::new(alloc);
    shell.kept_rows(0, &mut rows)?;
    match rows.rows() {
        [row] => Ok(is_second_put(row)),
        _ => Ok(false),
    }
}

/// A shell of Latest that wants memory when it is loaded again, where it kept the second put after its
/// last step. So a second run tells what the first one left in it.
#[derive(Drop)]
pub struct TellingShell {
    alloc: Global,
    inner: LatestShell,
    kept_second_put: bool,
}

impl TellingShell {
    /// One that isn't loaded.
    pub fn new(alloc: Global) -> TellingShell
        ensures kind { ⟦<TellingShell as Component>⟧.kind result ≡ LatestKind }
        ensures loaded { ⟦<TellingShell as Component>⟧.program result ≡ None }
        ensures kept { ⟦<TellingShell as Component>⟧.kept result ≡ [] }
    {
        TellingShell {
            alloc,
            inner: LatestShell::new(alloc),
            kept_second_put: false,
        }
    }
}

impl Component for TellingShell {
    ghost kind = { λ shell. ⟦<LatestShell as Component>⟧.kind shell.inner };

    ghost program = { λ shell. ⟦<LatestShell as Component>⟧.program shell.inner };

    ghost kept = { λ shell. ⟦<LatestShell as Component>⟧.kept shell.inner };

    fn fits(&self, program: &Program) -> bool {
        self.inner.fits(program)
    }

    fn load(&mut self, program: &Program) -> Result<(), AllocError> {
        if self.kept_second_put {
            self.inner = LatestShell::new(self.alloc);
            return Err(AllocError);
        }
        self.inner.load(program)
    }

    fn step(&mut self, now: &Arrivals, outs: &mut Outs) -> Result<(), StepFault> {
        self.inner.step(now, outs)?;
        self.kept_second_put = keeps_second_put(self.alloc, &self.inner)?;
        Ok(())
    }

    fn kept_rows(&self, table: u32, into: &mut RecordSet) -> Result<(), AllocError> {
        self.inner.kept_rows(table, into)
    }

    fn clear(&mut self) {
        self.inner.clear();
    }
}

/// A shell as another one, which wants memory at each step.
#[derive(Drop)]
pub struct PoorShell<C> {
    inner: C,
}

impl<C: Component> PoorShell<C> {
    /// One as this one, loaded or not.
    pub fn new(inner: C) -> PoorShell<C>
        ensures kind { ⟦<PoorShell<C> as Component>⟧.kind result ≡ C.kind inner }
        ensures loaded { ⟦<PoorShell<C> as Component>⟧.program result ≡ C.program inner }
        ensures kept { ⟦<PoorShell<C> as Component>⟧.kept result ≡ C.kept inner }
    {
        PoorShell { inner }
    }
}

impl<C: Component> Component for PoorShell<C> {
    ghost kind = { λ shell. C.kind shell.inner };

    ghost program = { λ shell. C.program shell.inner };

    ghost kept = { λ shell. C.kept shell.inner };

    fn fits(&self, program: &Program) -> bool {
        self.inner.fits(program)
    }

    fn load(&mut self, program: &Program) -> Result<(), AllocError> {
        self.inner.load(program)
    }

    fn step(&mut self, now: &Arrivals, outs: &mut Outs) -> Result<(), StepFault> {
        let _ = self.inner.step(now, outs);
        Err(StepFault::NoMemory)
    }

    fn kept_rows(&self, table: u32, into: &mut RecordSet) -> Result<(), AllocError> {
        self.inner.kept_rows(table, into)
    }

    fn clear(&mut self) {
        self.inner.clear();
    }
}
