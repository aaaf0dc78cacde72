//! The interface of a shell.
ghost use Rattle.std.specs.Prelude.{◌≡◌, ◌<◌, ◌↔◌, length, Option, None, Some, Err, IsTrue, IsSome, OnOk, OnErr};
ghost use Rattle.std.specs.List.{All};
ghost use Rattle.bloom_forms.specs.declared.program.Program.{Program as TheProgram};
ghost use Rattle.bloom_forms.specs.Program.{IsStock};
ghost use Rattle.bloom_forms.specs.Step.{Sets, set_at};
ghost use Rattle.bloom_eval.specs.declared.fault.StepFault.TheVariants.{TooManyRows};
ghost use Rattle.bloom_eval.specs.StepAnswers.{AllFit, SomeIsOver};
ghost use Rattle.bloom_eval.specs.declared.kind.ProgramKind.{ProgramKind as TheKind};
ghost use Rattle.bloom_eval.specs.Kind.{kind_of};
ghost use Rattle.bloom_eval.specs.Step.{Arrive, AreTables, nothing_kept, tables_next, outs_next, outs_still, counted_next};
ghost use Rattle.bloom_eval.specs.Changes.{AreChanges};
ghost use Rattle.bloom_eval.specs.Arrivals.{timestep_of};
ghost use Rattle.bloom_eval.specs.Puts.{ArePutOf, puts_in};
ghost use Rattle.blz_pool.specs.Entries.{entries_with_ids};

use crate::arriving::timestep;
use crate::fault::StepFault;
use crate::puts::Puts;
use crate::sets::{Arrivals, Outs};
use bloom_forms::Program;
use blz_pool::{Id, Pool};
use blz_set::RecordSet;
use std::alloc::{AllocError, Global};

/// A shell: it holds a program of its kind, or none, and steps it.
pub trait Component: Drop {
    /// The kind of program that fits, which no call changes.
    ghost kind: { Self → TheKind };

    /// The program that is loaded.
    ghost program: { Self → Option TheProgram };

    /// What is kept: one set for each table of the program.
    ghost kept: { Self → Sets };

    /// Whether a program can be loaded.
    fn fits(&self, given: &Program) -> bool
        requires stock { IsStock given.now }
        ensures { IsTrue result ↔ (kind_of given.now ≡ kind self.now) };

    /// Loads a program that fits, and empties what is kept. After want of memory there is no program.
    fn load(&mut self, given: &Program) -> Result<(), AllocError>
        requires stock { IsStock given.now }
        requires fits { kind_of given.now ≡ kind self.old }
        ensures kind { kind self.new ≡ kind self.old }
        ensures loaded { OnOk result (program self.new ≡ Some given.now) }
        ensures kept { OnOk result (kept self.new ≡ nothing_kept (Some given.now)) }
        ensures err { OnErr result (program self.new ≡ None) };

    /// Makes one step over what arrives, and makes `outs` what it puts out. TooManyRows comes exactly
    /// where a set of the step is too large. After a fault the program is as it was, and each table
    /// has some rows of its width.
    fn step(&mut self, now: &Arrivals, outs: &mut Outs) -> Result<(), StepFault>
        requires program { IsSome (program self.old) }
        requires arrivals { Arrive (program self.old) now.now }
        ensures kind { kind self.new ≡ kind self.old }
        ensures loaded { program self.new ≡ program self.old }
        ensures kept { OnOk result (kept self.new ≡ tables_next (program self.old) (kept self.old) now.now) }
        ensures outs { OnOk result (outs.new ≡ outs_next (program self.old) (kept self.old) now.now) }
        ensures few { OnOk result (AllFit (counted_next (program self.old) (kept self.old) now.now)) }
        ensures too_many { result ≡ Err TooManyRows → SomeIsOver (counted_next (program self.old) (kept self.old) now.now) }
        ensures tables { AreTables (program self.new) (kept self.new) };

    /// Makes one step, as `step` does, over the records with the ids of some entries, each at the port with
    /// its number, of so many. `puts` becomes what it puts out, but may lack rows that the tables of before already
    /// give, with nothing arriving. An id in it is that of an entry.
    fn step_by_ids(
        &mut self,
        alloc: Global,
        pool: &Pool,
        ports: usize,
        entries: &[(u32, Id)],
        puts: &mut Puts,
    ) -> Result<(), StepFault>
        requires program { IsSome (program self.old) }
        requires given { All (λ entry. entry.1 < length pool.now) entries.now }
        requires arrivals { Arrive (program self.old) (timestep_of ports (entries_with_ids pool.now entries.now)) }
        ensures kind { kind self.new ≡ kind self.old }
        ensures loaded { program self.new ≡ program self.old }
        ensures kept { OnOk result (kept self.new ≡ tables_next (program self.old) (kept self.old) (timestep_of ports (entries_with_ids pool.now entries.now))) }
        ensures outs { OnOk result (AreChanges (outs_next (program self.old) (kept self.old) (timestep_of ports (entries_with_ids pool.now entries.now))) (outs_still (program self.old) (kept self.old)) (puts_in pool.now puts.new)) }
        ensures ids { OnOk result (ArePutOf entries.now puts.new) }
        ensures few { OnOk result (AllFit (counted_next (program self.old) (kept self.old) (timestep_of ports (entries_with_ids pool.now entries.now)))) }
        ensures too_many { result ≡ Err TooManyRows → SomeIsOver (counted_next (program self.old) (kept self.old) (timestep_of ports (entries_with_ids pool.now entries.now))) }
        ensures tables { AreTables (program self.new) (kept self.new) }
    {
        let Ok(now) = timestep(alloc, pool, ports, entries) else {
            // What is kept has then the widths of its tables.
            self.clear();
            return Err(StepFault::NoMemory);
        };
        let mut outs = Outs::from_sets(Vec::new(alloc));
        self.step(&now, &mut outs)?;
        puts.put_sets(outs)?;
        Ok(())
    }

    /// Makes `into` the rows of a table, counted from 0. After want of memory it is as it was.
    fn kept_rows(&self, table: u32, into: &mut RecordSet) -> Result<(), AllocError>
        requires program { IsSome (program self.now) }
        requires within { table < length (kept self.now) }
        ensures ok { OnOk result (into.new ≡ set_at (kept self.now) table) }
        ensures err { OnErr result (into.new ≡ into.old) };

    /// Empties what is kept, and leaves the program.
    fn clear(&mut self)
        ensures kind { kind self.new ≡ kind self.old }
        ensures loaded { program self.new ≡ program self.old }
        ensures kept { kept self.new ≡ nothing_kept (program self.old) };
}
