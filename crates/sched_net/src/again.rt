//! How a net goes back to where it was opened: what it made is forgotten, and its shells stay.
ghost use Rattle.std.specs.Prelude.{◌≡◌, ◌<◌, ℕ, IsSome, IsTrue, [], length, map, IfOk, OnOk};
ghost use Rattle.bloom_eval.specs.Step.{nothing_kept};
ghost use Rattle.topo_forms.specs.Data.{Data as Held, IsData};
ghost use Rattle.topo_forms.specs.View.{program_of};
ghost use Rattle.sched_net.specs.Again.{StoodOver};
ghost use Rattle.sched_net.specs.Bench.{instance_components};
ghost use Rattle.sched_net.specs.Code.First.{StandFirst};
ghost use Rattle.sched_net.specs.Code.GoingBack.{BooksStoodOver, RanBefore};
ghost use Rattle.sched_net.specs.Net.{Stands};

use crate::books::Books;
use crate::forgetting::clear_at;
use crate::net::Net;
use crate::opening::{first_books, first_logs};
use crate::seating::first_seats;
use bloom_eval::Component;
use std::alloc::{AllocError, Global};
use topo_forms::{Data, Valid};

// Empties what all shells keep.
fn clear_all(shells: &mut Vec<Box<dyn Component>>)
    ensures kinds { map (λ b. kind b) shells.new.items ≡ map (λ b. kind b) shells.old.items }
    ensures loaded { map (λ b. program b) shells.new.items ≡ map (λ b. program b) shells.old.items }
    ensures kept { map (λ b. kept b) shells.new.items ≡ map nothing_kept (map (λ b. program b) shells.old.items) }
{
    for place in 0..shells.len() {
        clear_at(shells, place);
    }
}

impl Books {
    // Goes back to no step by what the emitted lists of the sources have, and answers whether it could. It can't
    // where a fault ended the net.
    fn go_back(&mut self, alloc: Global, valid: &Valid) -> Result<bool, AllocError>
        requires ran { RanBefore valid.now.view self.old }
        ensures { (given : Held) → BooksStoodOver valid.now.view given self.old → IfOk result (λ done. IsTrue done → StandFirst valid.now.view given self.new) }
    {
        if self.ended {
            return Ok(false);
        }
        valid.known();
        // A source has one emitted list, and sources come first.
        if !self.lists.keep_first(valid.source_count() as usize) {
            return Ok(false);
        }
        let key = self.lists.pool().key();
        let logs = first_logs(alloc, valid.component_count())?;
        let seats = first_seats(alloc, valid, &self.places, key)?;
        self.logs = logs;
        self.seats = seats;
        Ok(true)
    }

    // Goes back to no step over these data, of which a copy is taken where it can't go back by its lists.
    fn start_again(&mut self, alloc: Global, valid: &Valid, given: &Data) -> Result<(), AllocError>
        requires fits { IsData valid.now.view given.now }
        requires ran { RanBefore valid.now.view self.old }
        requires stood { BooksStoodOver valid.now.view given.now self.old }
        ensures { OnOk result (StandFirst valid.now.view given.now self.new) }
    {
        if self.go_back(alloc, valid)? {
            return Ok(());
        }
        *self = first_books(alloc, valid, given.copy()?)?;
        Ok(())
    }
}

impl Net<'_> {
    /// Goes back to where it was opened over these data, with its shells, of which none keeps anything. A net that
    /// no fault ended walks over the records of its sources; an ended one takes a copy of the data and is opened anew.
    /// The error is want of memory, after which nothing is said of the net but of its shells.
    pub fn start_again(&mut self, given: &Data) -> Result<(), AllocError>
        requires fits { IsData self.old.valid.now.view given.now }
        requires bodies { (c : ℕ) → c < length self.old.valid.now.view.components → IsSome (program_of self.old.valid.now.view c) }
        requires programs { map (λ b. program b) self.old.shells.items ≡ map (program_of self.old.valid.now.view) (instance_components self.old.valid.now.view) }
        requires stood { StoodOver self.old.valid.now.view given.now (map (λ b. program b) self.old.shells.items) (map (λ b. kept b) self.old.shells.items) self.old.books }

        // It stands for no step.
        ensures stands { OnOk result (Stands self.old.valid.now.view given.now [] (map (λ b. program b) self.new.shells.items) (map (λ b. kept b) self.new.shells.items) self.new.books) }

        ensures valid { self.new.valid ≡ self.old.valid }
        ensures kinds { map (λ b. kind b) self.new.shells.items ≡ map (λ b. kind b) self.old.shells.items }
        ensures loaded { map (λ b. program b) self.new.shells.items ≡ map (λ b. program b) self.old.shells.items }
    {
        self.books.start_again(self.alloc, self.valid, given)?;
        clear_all(&mut self.shells);
        Ok(())
    }
}
