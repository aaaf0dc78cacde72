//! A trial: some lines happen on a net that made no step, then its contents are looked at, and it goes back to
//! where it was.
ghost use Rattle.std.specs.Prelude.{◌≡◌, ◌≢◌, ◌++◌, [], IfOk, OnOk, None, false, map};
ghost use Rattle.std.specs.List.Sorted.{IsPermutation};
ghost use Rattle.messages.specs.declared.fault.EventFault.TheVariants as event_faults;
ghost use Rattle.sched_net.specs.Bench.{fault_of_opening};
ghost use Rattle.sched_net.specs.Net.{BooksRun, Stands};
ghost use Rattle.sched_net.specs.Reading.{IsRead};
ghost use Rattle.topo_forms.specs.Data.{IsData};
ghost use Rattle.why_trace.specs.Trim.{has_record};
ghost use Rattle.why_trace.specs.Code.Trials.{sought_of, is_yielded_by, TellsFound};

use bloom_eval::Component;
use blz_value::Record;
use messages::EventFault;
use sched_net::{Net, OpenFault, StepRefusal, run};
use sched_text::Event;
use std::alloc::{AllocError, Global};
use topo_forms::{Data, Valid};

/// Opens a net where the bench has a shell for each instance.
pub(crate) fn opened<'a>(
    alloc: Global,
    valid: &'a Valid,
    given: Data,
    bench: &mut Vec<Box<dyn Component>>,
) -> Result<Net<'a>, AllocError>
    requires data { IsData valid.now.view given }
    requires opens { fault_of_opening valid.now.view (λ k. k) (map (λ b. kind b) bench.old.items) ≡ None }
    ensures stands { IfOk result (λ net. Stands valid.now.view given [] (map (λ b. program b) net.shells.items) (map (λ b. kept b) net.shells.items) net.books) }
    ensures valid { IfOk result (λ net. net.valid.now ≡ valid.now) }
    ensures kinds { IfOk result (λ net. IsPermutation (map (λ b. kind b) bench.old.items) (map (λ b. kind b) bench.new.items ++ map (λ b. kind b) net.shells.items)) }
{
    match Net::open(alloc, valid, given, bench) {
        Ok(net) => Ok(net),
        Err(OpenFault::NoMemory) => Err(AllocError),
        Err(OpenFault::NoBody { .. }) => unreachable!(),
        Err(OpenFault::NoShell { .. }) => unreachable!(),
    }
}

// Nothing is found after a refusal; want of memory is no answer.
fn found_after(fault: &EventFault) -> Result<bool, AllocError>
    ensures answer { IfOk result (λ found. found ≡ false) }
    ensures other { OnOk result (fault.now ≢ event_faults.NoMemory) }
{
    match fault {
        EventFault::NoMemory => Err(AllocError),
        _ => Ok(false),
    }
}

/// What each trial goes by: a topology, its data, and the record that is looked for, with its stream and
/// the sending replica.
#[derive(Drop)]
pub(crate) struct Trial<'a> {
    pub(crate) alloc: Global,
    pub(crate) valid: &'a Valid,
    pub(crate) given: &'a Data,
    pub(crate) stream: u32,
    pub(crate) replica: u32,
    pub(crate) row: &'a Record,
}

impl Trial<'_> {
    // Whether the contents of a net have the record.
    fn is_in(&self, net: &Net<'_>) -> Result<bool, AllocError>
        requires same { net.now.valid.now.view ≡ self.now.valid.now.view }
        requires runs { BooksRun self.now.valid.now.view net.now.books }
        ensures { IfOk result (IsRead self.now.valid.now.view net.now.books (λ given x. has_record self.now.valid.now.view given (sought_of self.now).wanted x)) }
    {
        let rows = net.sorted_rows(self.stream, self.replica)?;
        Ok(rows.contains(&self.row))
    }

    // The same where all lines were applied; where one was refused nothing is found.
    fn is_found(&self, net: &Net<'_>, applied: Result<(), StepRefusal>) -> Result<bool, AllocError>
        requires same { net.now.valid.now.view ≡ self.now.valid.now.view }
        requires runs { OnOk applied (BooksRun self.now.valid.now.view net.now.books) }
        ensures { IfOk result (TellsFound (sought_of self.now) net.now.books applied) }
    {
        match applied {
            Ok(()) => self.is_in(net),
            Err(refusal) => found_after(&refusal.fault),
        }
    }

    /// Whether some lines yield the record: they happen on a net that made no step, which then goes back to
    /// where it was. Takes the events up to the first that is refused, references to the records that the
    /// replica has sent, and a walk over the records of the sources; where a limit ended the net, a copy of the
    /// data. The error is want of memory.
    pub(crate) fn is_yielded_by(
        &self,
        lines: &[(u32, Event)],
        net: &mut Net<'_>,
    ) -> Result<bool, AllocError>
        requires data { IsData self.now.valid.now.view self.now.given.now }
        requires same { net.old.valid.now ≡ self.now.valid.now }
        requires stands { Stands self.now.valid.now.view self.now.given.now [] (map (λ b. program (b.vtable, b.value)) net.old.shells.items) (map (λ b. kept (b.vtable, b.value)) net.old.shells.items) net.old.books }
        ensures found { IfOk result (λ found. found ≡ is_yielded_by (sought_of self.now) lines.now) }
        ensures same { net.new.valid ≡ net.old.valid }
        ensures stands { OnOk result (Stands self.now.valid.now.view self.now.given.now [] (map (λ b. program (b.vtable, b.value)) net.new.shells.items) (map (λ b. kept (b.vtable, b.value)) net.new.shells.items) net.new.books) }
        ensures kinds { map (λ b. kind (b.vtable, b.value)) net.new.shells.items ≡ map (λ b. kind (b.vtable, b.value)) net.old.shells.items }
    {
        let applied = run(net, lines);
        let found = self.is_found(net, applied)?;
        net.start_again(self.given)?;
        Ok(found)
    }
}
