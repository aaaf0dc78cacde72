//! Windows: of a list that only grows, the first places that are open.
//!
//! A place that isn't open never becomes so again. So a window keeps its open places and how far it
//! looked. Each place of the list is looked at once, and again only where it stands in the window and
//! may be stale.
ghost use Rattle.std.specs.Prelude.{◌≡◌, ◌≤◌, ℕ, Bool, [], OnOk, length, filter};
ghost use Rattle.std.specs.List.{range_with_len};
ghost use Rattle.sched_turns.specs.Windows.{IsWindow, MayShow, OthersAreOpen, first_open};

use std::alloc::{AllocError, Global};
use std::marker::Model;

/// The most places that a window has.
pub(crate) const WINDOW: usize = 8;

/// A list with open places.
pub trait OpenPlaces {
    ghost is_open: { Self → ℕ → Bool };

    /// Whether a place is open.
    fn is_open(&self, place: u32) -> bool
        ensures { result ≡ is_open self.now place };
}

/// Which of the places that a window shows may be stale: no longer open.
#[derive(Clone, Copy)]
pub enum Stale {
    Nothing,
    Place(u32),
    Everything,
}

/// A window on a list.
#[derive(Drop)]
pub struct Window {
    places: Vec<u32>,
    next: u32,
}

impl Model for Window {
    ghost use Rattle.std.specs.Prelude.{◌≤◌, length};
    ghost use Rattle.sched_turns.specs.Windows.{Looked, window_size};

    ghost Value = { Looked };

    ghost view = { λ window. record { places = window.places.items; next = window.next } };

    ghost invariant = { λ window. length window.places.items ≤ window_size };
}

impl Window {
    /// The window on a list at which it hasn't looked.
    pub fn new(alloc: Global) -> Window
        ensures { result ≡ record { places = []; next = 0 } }
    {
        Window {
            places: Vec::new(alloc),
            next: 0,
        }
    }

    /// The open places, ascending.
    pub fn places(&self) -> &[u32]
        ensures { result.now ≡ self.now.places }
    {
        &self.places
    }

    /// Looks at a list of so many places again, of which these may be stale. The error is want of
    /// memory.
    pub fn look<L: OpenPlaces>(
        &mut self,
        list: &L,
        count: u32,
        stale: Stale,
    ) -> Result<(), AllocError>
        requires grown { self.old.next ≤ count }
        requires shown { MayShow (L.is_open list.now) self.old }
        requires fresh { OthersAreOpen (L.is_open list.now) stale self.old.places }
        ensures window { OnOk result (IsWindow (L.is_open list.now) count self.new) }
        ensures places { OnOk result (self.new.places ≡ first_open (L.is_open list.now) count) }
    {
        self.close(list, stale);
        self.look_on(list, count)
    }

    // Leaves out the places that aren't open any more.
    fn close<L: OpenPlaces>(&mut self, list: &L, stale: Stale)
        requires { OthersAreOpen (L.is_open list.now) stale self.old.places }
        ensures places { self.new.places ≡ filter (L.is_open list.now) self.old.places }
        ensures next { self.new.next ≡ self.old.next }
    {
        match stale {
            Stale::Nothing => {}
            Stale::Place(one) => {
                self.places
                    .retain(|place| *place != one || list.is_open(*place));
            }
            Stale::Everything => self.places.retain(|place| list.is_open(*place)),
        }
    }

    // Looks at places on from where it looked, until the window is full or the list ends.
    fn look_on<L: OpenPlaces>(&mut self, list: &L, count: u32) -> Result<(), AllocError>
        requires grown { self.old.next ≤ count }
        requires looked { self.old.places ≡ filter (L.is_open list.now) (range_with_len 0 self.old.next) }
        ensures { OnOk result (IsWindow (L.is_open list.now) count self.new) }
    {
        while self.next < count && self.places.len() < WINDOW {
            if list.is_open(self.next) {
                self.places.push(self.next)?;
            }
            self.next += 1;
        }
        Ok(())
    }
}
