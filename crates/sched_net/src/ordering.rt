//! Order components: a message comes to the log of one, and a replica takes the next entry.
ghost use Rattle.std.specs.Prelude.{◌≡◌, ◌<◌, ◌∷◌, [], None, Err, IsSome, IfSome, OnOk, length, map, slice_index_or};
ghost use Rattle.std.specs.List.{All};
ghost use Rattle.topo_forms.specs.View.{is_order};
ghost use Rattle.bloom_eval.specs.Step.{Arrive};
ghost use Rattle.blz_pool.specs.Pool.{IsPool};
ghost use Rattle.inbox.specs.Events.{order, take_one};
ghost use Rattle.inbox.specs.Growth.{Continues};
ghost use Rattle.blz_pool.specs.Entries.{entry_with_id};
ghost use Rattle.bloom_eval.specs.Arrivals.{timestep_of};
ghost use Rattle.inbox.specs.Limits.{too_many_rows, too_many_messages};
ghost use Rattle.messages.specs.Lists.{IsExact, read_lists};
ghost use Rattle.sched_net.specs.Net.{Runs, BooksRun, EventAnswers, EventLeaves, BooksAnswer, BooksLeave};
ghost use Rattle.inbox.specs.Outlets.{OthersStay};
ghost use Rattle.messages.specs.Faults.{IsLegal};
ghost use Rattle.sched_net.specs.Code.Hearing.{EventLeavesOpen, BooksLeaveOpen};
ghost use Rattle.inbox.specs.Running.{EmitsAt, MeetsAt};
ghost use Rattle.sched_net.specs.Taking.{takes_itself, took_one, IsNext, HasTakenFew, entry_sets_off, EarChanges, has_log, LogGets};
ghost use Rattle.messages.specs.declared.fault.EventFault.TheVariants.{TooManyRows, TooManyMessages};

use crate::books::Books;
use crate::numbered::NumberedPart;
use crate::seated::Seated;
use bloom_eval::{Component, Puts};
use bloom_forms::Mode;
use blz_pool::Id;
use inbox::{Outlet, emit_entries_at};
use messages::{EventFault, Lists, Message};
use std::alloc::{AllocError, Global};
use topo_forms::Valid;

// ---- who has a log, and who takes from one

// Whether a component is there and is Order.
fn has_log(valid: &Valid, component: u32) -> bool
    ensures { result ≡ has_log valid.now.view component }
{
    component < valid.component_count() && matches!(valid.mode(component), Mode::Order)
}

/// Whether the mode of a component is Order.
pub fn is_order(valid: &Valid, component: u32) -> bool
    requires { component < length valid.now.view.components }
    ensures { result ≡ is_order valid.now.view component }
{
    match valid.mode(component) {
        Mode::Order => true,
        Mode::Free | Mode::Pass(_) | Mode::Seal(_) => false,
    }
}

// Whether an instance is there and takes from a log.
fn takes_itself(valid: &Valid, component: u32, replica: u32) -> bool
    ensures { result ≡ takes_itself valid.now.view component replica }
{
    component < valid.component_count()
        && replica < valid.replicas(component)
        && matches!(valid.mode(component), Mode::Order)
}

// ---- what changes

// The instance at a place takes an entry more.
fn take_at(seats: &mut Vec<Seated>, place: usize)
    requires place { place < length seats.old.items }
    requires few { HasTakenFew place seats.old.items }
    ensures { EarChanges place took_one seats.old.items seats.new.items }
{
    seats[place].ear.take_one();
}

// The shell at a place emits what an entry sets off.
fn emit_entry(
    alloc: Global,
    shells: &mut Vec<Box<dyn Component>>,
    place: usize,
    lists: &mut Lists,
    outlets: &[Outlet],
    ports: usize,
    entry: (u32, Id),
    puts: &mut Puts,
) -> Result<(), EventFault>
    requires place { place < length shells.old.items }
    requires program { IsSome (slice_index_or (map (λ b. program b) shells.old.items) place None) }
    requires given { entry.1 < length lists.old.records }
    requires arrives { Arrive (slice_index_or (map (λ b. program b) shells.old.items) place None) (timestep_of ports (entry_with_id lists.old.records entry ∷ [])) }
    requires places { All (λ o. o.place < length lists.old.lists) outlets.now }
    requires exact { IsExact lists.old }
    ensures kinds { map (λ b. kind b) shells.new.items ≡ map (λ b. kind b) shells.old.items }
    ensures loaded { map (λ b. program b) shells.new.items ≡ map (λ b. program b) shells.old.items }
    ensures ok { OnOk result (EmitsAt (map (λ b. program b) shells.old.items) place outlets.now (map (λ b. kept b) shells.old.items) (map (λ b. kept b) shells.new.items) (read_lists lists.old) (read_lists lists.new) (entry_sets_off lists.old.records ports entry)) }
    ensures records { OnOk result (Continues lists.old.records lists.new.records) }
    ensures pool { OnOk result (IsPool lists.new.records) }
    ensures exact { OnOk result (IsExact lists.new) }
    ensures others { OnOk result (OthersStay outlets.now (read_lists lists.old) (read_lists lists.new)) }
    ensures rows { result ≡ Err TooManyRows → MeetsAt too_many_rows (map (λ b. program b) shells.old.items) place outlets.now (map (λ b. kept b) shells.old.items) (read_lists lists.old) (entry_sets_off lists.old.records ports entry) }
    ensures messages { result ≡ Err TooManyMessages → MeetsAt too_many_messages (map (λ b. program b) shells.old.items) place outlets.now (map (λ b. kept b) shells.old.items) (read_lists lists.old) (entry_sets_off lists.old.records ports entry) }
    ensures legal { IsLegal result }
{
    let emitted = emit_entries_at(alloc, shells, place, lists, outlets, ports, &[entry], puts);
    lists.known();
    emitted
}

impl Books {
    // The entry that the instance at a place takes next, None where there is none.
    fn next_entry(&self, component: usize, place: usize) -> Option<(u32, Id)>
        requires component { component < length self.now.logs.items }
        requires place { place < length self.now.seats.items }
        ensures next { IsNext self.now component place result }
        ensures few { IfSome result (λ entry. HasTakenFew place self.now.seats.items) }
    {
        let log = &self.logs[component];
        let taken = self.seats[place].ear.taken();
        if taken < log.len() {
            log.entry(taken)
        } else {
            None
        }
    }

    // A message comes to a log: a record is appended, unless the log has it, and a seal changes
    // nothing. The error is want of memory.
    fn log(&mut self, component: usize, port: u32, message: &Message) -> Result<(), AllocError>
        requires { component < length self.old.logs.items }
        ensures logs { OnOk result (LogGets component port message.now self.old.logs.items self.new.logs.items) }
        ensures lists { self.new.lists ≡ self.old.lists }
        ensures places { self.new.places ≡ self.old.places }
        ensures seats { self.new.seats ≡ self.old.seats }
        ensures ended { self.new.ended ≡ self.old.ended }
        ensures pool { IsPool self.old.lists.records }
    {
        self.lists.known();
        match message {
            Message::Row(id) => {
                let _ = self.logs[component].append(port, *id)?;
                Ok(())
            }
            Message::Seal { .. } => Ok(()),
        }
    }

    // A replica takes the next entry, before a fault ends the net.
    fn take_next(
        &mut self,
        alloc: Global,
        valid: &Valid,
        shells: &mut Vec<Box<dyn Component>>,
        component: u32,
        replica: u32,
    ) -> Result<(), EventFault>
        requires runs { Runs valid.now.view (map (λ b. program b) shells.old.items) (map (λ b. kept b) shells.old.items) self.old }
        ensures answer { EventAnswers valid.now.view (map (λ b. program b) shells.old.items) (map (λ b. kept b) shells.old.items) self.old (take_one component replica) result }
        ensures leaves { EventLeavesOpen valid.now.view (map (λ b. program b) shells.old.items) (map (λ b. kept b) shells.old.items) (map (λ b. kept b) shells.new.items) self.old self.new (take_one component replica) result }
        ensures kinds { map (λ b. kind b) shells.new.items ≡ map (λ b. kind b) shells.old.items }
        ensures loaded { map (λ b. program b) shells.new.items ≡ map (λ b. program b) shells.old.items }
    {
        valid.known();
        if !takes_itself(valid, component, replica) {
            return Err(EventFault::NoInstance);
        }
        let place = self.places.instance(valid, component, replica);
        let Some(entry) = self.next_entry(component as usize, place) else {
            return Err(EventFault::NothingToTake);
        };
        emit_entry(
            alloc,
            shells,
            place,
            &mut self.lists,
            self.seats[place].outlets.as_slice(),
            valid.port_count(component) as usize,
            entry,
            &mut self.puts,
        )?;
        take_at(&mut self.seats, place);
        Ok(())
    }

    /// A replica of an Order component takes the next entry of the log, which is its timestep.
    /// NoInstance comes where the instance isn't there or isn't of an Order component, and
    /// NothingToTake where it has taken all in this life.
    pub fn take(
        &mut self,
        alloc: Global,
        valid: &Valid,
        shells: &mut Vec<Box<dyn Component>>,
        component: u32,
        replica: u32,
    ) -> Result<(), EventFault>
        requires runs { Runs valid.now.view (map (λ b. program b) shells.old.items) (map (λ b. kept b) shells.old.items) self.old }
        ensures answer { EventAnswers valid.now.view (map (λ b. program b) shells.old.items) (map (λ b. kept b) shells.old.items) self.old (take_one component replica) result }
        ensures leaves { EventLeaves valid.now.view (map (λ b. program b) shells.old.items) (map (λ b. kept b) shells.old.items) (map (λ b. kept b) shells.new.items) self.old self.new (take_one component replica) result }
        ensures kinds { map (λ b. kind b) shells.new.items ≡ map (λ b. kind b) shells.old.items }
        ensures loaded { map (λ b. program b) shells.new.items ≡ map (λ b. program b) shells.old.items }
    {
        let result = self.take_next(alloc, valid, shells, component, replica);
        self.end_at(&result);
        result
    }

    // A message comes to a log, before a fault ends the net.
    fn order_next(
        &mut self,
        valid: &Valid,
        component: u32,
        part: NumberedPart,
    ) -> Result<(), EventFault>
        requires { BooksRun valid.now.view self.old }
        ensures answer { BooksAnswer valid.now.view self.old (order part component) result }
        ensures leaves { BooksLeaveOpen valid.now.view self.old self.new (order part component) result }
    {
        valid.known();
        if !has_log(valid, component) {
            return Err(EventFault::NoInstance);
        }
        let (_, message) = self.pair_of(valid, component, 0, part)?;
        self.log(component as usize, part.port, &message)?;
        Ok(())
    }

    /// A message comes to the log of an Order component. NoInstance comes where the component isn't
    /// there, isn't Order or has no feed for the message, and NoMessage where it isn't emitted yet.
    pub fn order(
        &mut self,
        valid: &Valid,
        component: u32,
        part: NumberedPart,
    ) -> Result<(), EventFault>
        requires { BooksRun valid.now.view self.old }
        ensures answer { BooksAnswer valid.now.view self.old (order part component) result }
        ensures leaves { BooksLeave valid.now.view self.old self.new (order part component) result }
    {
        let result = self.order_next(valid, component, part);
        self.end_at(&result);
        result
    }
}
