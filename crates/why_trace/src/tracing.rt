//! What a record needs of a schedule: in passes, each from the last line to the first, a line is left out
//! where the others still yield the record.
ghost use Rattle.std.specs.Prelude.{◌≡◌, ◌<◌, ℕ, [], IfOk, OnOk, None, length, map, nat_lt, true, false};
ghost use Rattle.std.specs.List.{remove};
ghost use Rattle.std.specs.List.Sorted.{IsPermutation};
ghost use Rattle.sched_net.specs.Bench.{fault_of_opening};
ghost use Rattle.sched_net.specs.Net.{Stands};
ghost use Rattle.topo_forms.specs.Data.{IsData};
ghost use Rattle.why_trace.specs.Passes.{without_needless, one_pass, trim_by, IsSublist};
ghost use Rattle.why_trace.specs.Trim.{wanted, yields, trim};
ghost use Rattle.why_trace.specs.Code.Trials.{sought_of, is_yielded_by};

use crate::aside::{set_aside, set_back};
use crate::copies::copies_of_lines;
use crate::trial::{Trial, opened};
use bloom_eval::Component;
use blz_value::Record;
use sched_net::Net;
use sched_text::{Event, Schedule};
use std::alloc::{AllocError, Global};
use topo_forms::{Data, Valid};

impl Trial<'_> {
    // Leaves the line at a place out where the others yield the record.
    fn leave_out(
        &self,
        lines: &mut Vec<(u32, Event)>,
        place: usize,
        net: &mut Net<'_>,
    ) -> Result<(), AllocError>
        requires data { IsData self.now.valid.now.view self.now.given.now }
        requires same { net.old.valid.now ≡ self.now.valid.now }
        requires stands { Stands self.now.valid.now.view self.now.given.now [] (map (λ b. program (b.vtable, b.value)) net.old.shells.items) (map (λ b. kept (b.vtable, b.value)) net.old.shells.items) net.old.books }
        requires there { place < length lines.old.items }
        ensures lines { OnOk result (lines.new.items ≡ without_needless (is_yielded_by (sought_of self.now)) place lines.old.items) }
        ensures same { net.new.valid ≡ net.old.valid }
        ensures stands { OnOk result (Stands self.now.valid.now.view self.now.given.now [] (map (λ b. program (b.vtable, b.value)) net.new.shells.items) (map (λ b. kept (b.vtable, b.value)) net.new.shells.items) net.new.books) }
        ensures kinds { map (λ b. kind (b.vtable, b.value)) net.new.shells.items ≡ map (λ b. kind (b.vtable, b.value)) net.old.shells.items }
    {
        set_aside(lines, place);
        let others = lines.len() - 1;
        if self.is_yielded_by(&lines[..others], net)? {
            lines.truncate(others);
            return Ok(());
        }
        set_back(lines, place);
        Ok(())
    }

    // One pass, from the last line to the first, and whether it left one out.
    fn pass(&self, lines: &mut Vec<(u32, Event)>, net: &mut Net<'_>) -> Result<bool, AllocError>
        requires data { IsData self.now.valid.now.view self.now.given.now }
        requires same { net.old.valid.now ≡ self.now.valid.now }
        requires stands { Stands self.now.valid.now.view self.now.given.now [] (map (λ b. program (b.vtable, b.value)) net.old.shells.items) (map (λ b. kept (b.vtable, b.value)) net.old.shells.items) net.old.books }
        ensures lines { OnOk result (lines.new.items ≡ one_pass (is_yielded_by (sought_of self.now)) lines.old.items) }
        ensures fewer { IfOk result (λ fewer. fewer ≡ nat_lt (length lines.new.items) (length lines.old.items)) }
        ensures same { net.new.valid ≡ net.old.valid }
        ensures stands { OnOk result (Stands self.now.valid.now.view self.now.given.now [] (map (λ b. program (b.vtable, b.value)) net.new.shells.items) (map (λ b. kept (b.vtable, b.value)) net.new.shells.items) net.new.books) }
        ensures kinds { map (λ b. kind (b.vtable, b.value)) net.new.shells.items ≡ map (λ b. kind (b.vtable, b.value)) net.old.shells.items }
    {
        let count = lines.len();
        for place in (0..count).rev() {
            self.leave_out(lines, place, net)?;
        }
        Ok(lines.len() < count)
    }

    // Passes until one leaves nothing out.
    fn trim(&self, lines: &mut Vec<(u32, Event)>, net: &mut Net<'_>) -> Result<(), AllocError>
        requires data { IsData self.now.valid.now.view self.now.given.now }
        requires same { net.old.valid.now ≡ self.now.valid.now }
        requires stands { Stands self.now.valid.now.view self.now.given.now [] (map (λ b. program (b.vtable, b.value)) net.old.shells.items) (map (λ b. kept (b.vtable, b.value)) net.old.shells.items) net.old.books }
        ensures lines { OnOk result (lines.new.items ≡ trim_by (is_yielded_by (sought_of self.now)) lines.old.items) }
        ensures same { net.new.valid ≡ net.old.valid }
        ensures stands { OnOk result (Stands self.now.valid.now.view self.now.given.now [] (map (λ b. program (b.vtable, b.value)) net.new.shells.items) (map (λ b. kept (b.vtable, b.value)) net.new.shells.items) net.new.books) }
        ensures kinds { map (λ b. kind (b.vtable, b.value)) net.new.shells.items ≡ map (λ b. kind (b.vtable, b.value)) net.old.shells.items }
    {
        while self.pass(lines, net)? {}
        Ok(())
    }
}

/// The lines of a schedule, with their numbers, that a record at a stream and a sending replica needs.
/// In passes from the last line to the first, each goes without which the present ones still yield the
/// record, until a pass leaves nothing out. The shells of the bench go back to it, in any order. The
/// error is want of memory, after which nothing is said of the bench.
///
/// One net is opened over a copy of the data. Each line of each pass takes a trial: the events up to the first
/// that is refused, references to the records that the replica has sent, and a walk over the records of the
/// sources; and a copy of the data more where a limit ended it.
pub fn trace(
    alloc: Global,
    valid: &Valid,
    given: &Data,
    schedule: &Schedule,
    stream: u32,
    replica: u32,
    row: &Record,
    bench: &mut Vec<Box<dyn Component>>,
) -> Result<Schedule, AllocError>
    requires data { IsData valid.now.view given.now }
    requires yields { yields valid.now.view given.now (wanted stream replica row.now) schedule.now ≡ true }
    requires opens { fault_of_opening valid.now.view (λ k. k) (map (λ b. kind b) bench.old.items) ≡ None }

    ensures trimmed { IfOk result (λ kept. kept ≡ trim valid.now.view given.now (wanted stream replica row.now) schedule.now) }

    // What is kept yields the record, no line of it can go alone, and it is in the schedule's order.
    ensures yields { IfOk result (λ kept. yields valid.now.view given.now (wanted stream replica row.now) kept ≡ true) }
    ensures needed { IfOk result (λ kept. (k : ℕ) → k < length kept → yields valid.now.view given.now (wanted stream replica row.now) (remove kept k) ≡ false) }
    ensures part { IfOk result (λ kept. IsSublist kept schedule.now) }

    // As many shells of each kind as before.
    ensures kinds { OnOk result (IsPermutation (map (λ b. kind b) bench.old.items) (map (λ b. kind b) bench.new.items)) }
{
    let mut lines = copies_of_lines(alloc, schedule.lines())?;
    let mut net = opened(alloc, valid, given.copy()?, bench)?;
    let trial = Trial {
        alloc,
        valid,
        given,
        stream,
        replica,
        row,
    };
    trial.trim(&mut lines, &mut net)?;
    net.close(bench)?;
    Ok(Schedule::from_lines(lines))
}
