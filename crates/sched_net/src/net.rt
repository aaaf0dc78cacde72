//! A topology at work: boxed shells beside the books of what was emitted, heard and logged.
ghost use Rattle.std.specs.Prelude.{◌≡◌, map};
ghost use Rattle.topo_forms.specs.Valid.{IsValid};
ghost use Rattle.sched_net.specs.Net.{Runs, EventAnswers, EventLeaves};
ghost use Rattle.sched_net.specs.Numbered.{numbered, event_by_numbers};

use crate::books::Books;
use crate::numbered::{Nearby, NumberedEvent};
use bloom_eval::Component;
use messages::EventFault;
use sched_text::Event;
use std::alloc::Global;
use topo_forms::Valid;

/// The instances of a topology with the shells that evaluate them, and all that was emitted, heard
/// and logged. It stands for the events and forgets that were applied since it was opened.
#[derive(Drop)]
pub struct Net<'a> {
    pub(crate) alloc: Global,
    pub(crate) valid: &'a Valid,
    pub(crate) books: Books,
    pub(crate) shells: Vec<Box<dyn Component>>,
    pub(crate) nearby: Nearby,
}

impl<'a> Net<'a> {
    /// The allocator of the net.
    pub fn alloc(&self) -> Global
        ensures { result ≡ self.now.alloc }
    {
        self.alloc
    }

    /// The topology that is at work.
    pub fn valid(&self) -> &'a Valid
        ensures { result.now ≡ self.now.valid.now }
    {
        self.valid
    }

    /// What was emitted, heard and logged.
    pub fn books(&self) -> &Books
        ensures { result.now ≡ self.now.books }
    {
        &self.books
    }

    /// What holds of the topology; the call does nothing.
    pub fn known(&self)
        ensures { IsValid self.now.valid.now.view }
    {
        self.valid.known();
    }

    /// Applies an event. NoInstance, NoMessage and NothingToTake say that it isn't legal now, and change
    /// nothing. TooManyRows comes where a step of it would have a set of more than 262,144 rows, and
    /// TooManyMessages where the emitted lists together would have more than 262,144 messages,
    /// whichever is met first; these and want of memory end the net.
    pub fn event(&mut self, event: &Event) -> Result<(), EventFault>
        requires runs { Runs self.old.valid.now.view (map (λ b. program b) self.old.shells.items) (map (λ b. kept b) self.old.shells.items) self.old.books }

        // Of all steps for which the net stood: the answer, and for which it stands then.
        ensures answer { EventAnswers self.old.valid.now.view (map (λ b. program b) self.old.shells.items) (map (λ b. kept b) self.old.shells.items) self.old.books (numbered self.old.valid.now.view event.now) result }
        ensures leaves { EventLeaves self.old.valid.now.view (map (λ b. program b) self.old.shells.items) (map (λ b. kept b) self.old.shells.items) (map (λ b. kept b) self.new.shells.items) self.old.books self.new.books (numbered self.old.valid.now.view event.now) result }

        ensures valid { self.new.valid ≡ self.old.valid }
        ensures kinds { map (λ b. kind b) self.new.shells.items ≡ map (λ b. kind b) self.old.shells.items }
        ensures loaded { map (λ b. program b) self.new.shells.items ≡ map (λ b. program b) self.old.shells.items }
    {
        match event {
            Event::Deliver {
                sent,
                component,
                port,
                replica,
            } => {
                let number = self.nearby.component(self.valid, component);
                let part = self.nearby.part(self.valid, number, sent, port);
                self.numbered_event(&NumberedEvent::Deliver {
                    part,
                    component: number,
                    replica: *replica,
                })
            }
            Event::Batch {
                component,
                replica,
                parts,
            } => {
                let number = self.nearby.component(self.valid, component);
                self.books.deliver_all(
                    self.alloc,
                    self.valid,
                    &mut self.shells,
                    number,
                    *replica,
                    parts.as_slice(),
                )
            }
            Event::Order {
                sent,
                component,
                port,
            } => {
                let number = self.nearby.component(self.valid, component);
                let part = self.nearby.part(self.valid, number, sent, port);
                self.numbered_event(&NumberedEvent::Order {
                    part,
                    component: number,
                })
            }
            Event::Take { component, replica } => {
                let number = self.nearby.component(self.valid, component);
                self.numbered_event(&NumberedEvent::Take {
                    component: number,
                    replica: *replica,
                })
            }
        }
    }

    /// Applies an event by numbers, as `event` does one with names.
    pub fn numbered_event(&mut self, event: &NumberedEvent) -> Result<(), EventFault>
        requires runs { Runs self.old.valid.now.view (map (λ b. program b) self.old.shells.items) (map (λ b. kept b) self.old.shells.items) self.old.books }

        // Of all steps for which the net stood: the answer, and for which it stands then.
        ensures answer { EventAnswers self.old.valid.now.view (map (λ b. program b) self.old.shells.items) (map (λ b. kept b) self.old.shells.items) self.old.books (event_by_numbers event.now) result }
        ensures leaves { EventLeaves self.old.valid.now.view (map (λ b. program b) self.old.shells.items) (map (λ b. kept b) self.old.shells.items) (map (λ b. kept b) self.new.shells.items) self.old.books self.new.books (event_by_numbers event.now) result }

        ensures valid { self.new.valid ≡ self.old.valid }
        ensures kinds { map (λ b. kind b) self.new.shells.items ≡ map (λ b. kind b) self.old.shells.items }
        ensures loaded { map (λ b. program b) self.new.shells.items ≡ map (λ b. program b) self.old.shells.items }
    {
        match event {
            NumberedEvent::Deliver {
                part,
                component,
                replica,
            } => self.books.deliver(
                self.alloc,
                self.valid,
                &mut self.shells,
                *component,
                *replica,
                *part,
            ),
            NumberedEvent::Order { part, component } => {
                self.books.order(self.valid, *component, *part)
            }
            NumberedEvent::Take { component, replica } => self.books.take(
                self.alloc,
                self.valid,
                &mut self.shells,
                *component,
                *replica,
            ),
        }
    }
}
