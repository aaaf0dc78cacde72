//! The open works: a window on each lane, whether each taker can take, and a tree of their numbers.
ghost use Rattle.std.specs.Prelude.{◌≡◌, ◌<◌, ℕ, IfOk, OnOk, length, map, sum};
ghost use Rattle.std.specs.List.{All};
ghost use Rattle.sched_net.specs.Net.{BooksRun};
ghost use Rattle.sched_net.specs.Numbered.{event_by_numbers};
ghost use Rattle.sched_run.specs.Made.{part_on};
ghost use Rattle.sched_run.specs.Code.Looking.{IsLane, IsTaker, LooksAt};
ghost use Rattle.sched_run.specs.Code.Works.{is_taking, work_event, HasNames, AreWindowsOn, AreSizesWith, AreWorksOf, AreShown, IsOpenWork, StandsThere, MayLookAt, LooksAgain, LookedAt, LookedFor};

use crate::lanes::{Lane, Taker, lanes, takers};
use crate::looking::{can_take, look};
use inbox::Feed;
use sched_net::{Books, NumberedEvent, NumberedPart};
use sched_turns::{Sizes, Stale, Window};
use std::alloc::{AllocError, Global};
use topo_forms::Valid;

/// One open work: the message of a lane with an index, or a take.
#[derive(Clone, Copy)]
pub(crate) enum Work {
    Message(Lane, u32),
    Take(Taker),
}

// The message of a feed with an index, at the feed's port.
fn part_on(feed: &Feed, index: u32) -> NumberedPart
    ensures { result ≡ part_on feed.now index }
{
    NumberedPart {
        stream: feed.stream,
        replica: feed.sender,
        index,
        port: feed.port,
    }
}

impl Work {
    /// Whether it is a take.
    pub(crate) fn is_take(&self) -> bool
        ensures { result ≡ is_taking self.now }
    {
        matches!(self, Work::Take(_))
    }

    /// The event by which it is done.
    pub(crate) fn event(&self) -> NumberedEvent
        ensures { event_by_numbers result ≡ work_event self.now }
    {
        match self {
            Work::Message(
                Lane::Deliver {
                    component,
                    replica,
                    feed,
                    ..
                },
                index,
            ) => NumberedEvent::Deliver {
                part: part_on(feed, *index),
                component: *component,
                replica: *replica,
            },
            Work::Message(Lane::Order { component, feed }, index) => NumberedEvent::Order {
                part: part_on(feed, *index),
                component: *component,
            },
            Work::Take(Taker { component, replica }) => NumberedEvent::Take {
                component: *component,
                replica: *replica,
            },
        }
    }
}

// A window on a lane at which nobody looked before.
fn window_of(alloc: Global, valid: &Valid, books: &Books, lane: &Lane) -> Result<Window, AllocError>
    requires runs { BooksRun valid.now.view books.now }
    requires lane { IsLane valid.now.view lane.now }
    ensures { IfOk result (LooksAt valid.now.view books.now lane.now) }
{
    let mut window = Window::new(alloc);
    look(valid, books, lane, Stale::Nothing, &mut window)?;
    Ok(window)
}

// A window on each lane.
fn windows_of(
    alloc: Global,
    valid: &Valid,
    books: &Books,
    lanes: &[Lane],
) -> Result<Vec<Window>, AllocError>
    requires runs { BooksRun valid.now.view books.now }
    requires lanes { All (IsLane valid.now.view) lanes.now }
    ensures { IfOk result (λ windows. AreWindowsOn valid.now.view books.now lanes.now windows.items) }
{
    let mut windows = Vec::new(alloc);
    for lane in lanes {
        windows.push(window_of(alloc, valid, books, lane)?)?;
    }
    Ok(windows)
}

// How many works each lane has.
fn sizes_of(alloc: Global, windows: &[Window]) -> Result<Vec<usize>, AllocError>
    ensures { IfOk result (λ sizes. sizes.items ≡ map (λ window. length window.places) windows.now) }
{
    let mut sizes = Vec::new(alloc);
    for window in windows {
        sizes.push(window.places().len())?;
    }
    Ok(sizes)
}

// Adds how many works each taker has.
fn push_takes(
    valid: &Valid,
    books: &Books,
    takers: &[Taker],
    sizes: &mut Vec<usize>,
) -> Result<(), AllocError>
    requires runs { BooksRun valid.now.view books.now }
    requires takers { All (IsTaker valid.now.view) takers.now }
    ensures { OnOk result (AreSizesWith valid.now.view books.now sizes.old.items takers.now sizes.new.items) }
{
    for taker in takers {
        sizes.push(usize::from(can_take(valid, books, *taker)))?;
    }
    Ok(())
}

/// The works of all lanes, and then those of all takers.
#[derive(Drop)]
pub(crate) struct Works {
    pub(crate) lanes: Vec<Lane>,
    pub(crate) takers: Vec<Taker>,
    windows: Vec<Window>,
    sizes: Sizes,
}

impl Works {
    /// The works of a net. The error is want of memory.
    pub(crate) fn of(alloc: Global, valid: &Valid, books: &Books) -> Result<Works, AllocError>
        requires { BooksRun valid.now.view books.now }
        ensures works { IfOk result (AreWorksOf valid.now.view) }
        ensures shown { IfOk result (AreShown valid.now.view books.now) }
    {
        valid.known();
        let lanes = lanes(alloc, valid, books)?;
        let takers = takers(alloc, valid)?;
        let windows = windows_of(alloc, valid, books, lanes.as_slice())?;
        let mut sizes = sizes_of(alloc, windows.as_slice())?;
        push_takes(valid, books, takers.as_slice(), &mut sizes)?;
        // There are never so many; the sum of all sizes then fits.
        if u32::try_from(sizes.len()).is_err() {
            return Err(AllocError);
        }
        Ok(Works {
            lanes,
            takers,
            windows,
            sizes: Sizes::of(alloc, sizes)?,
        })
    }

    /// The number of open works.
    pub(crate) fn total(&self) -> usize
        ensures { result ≡ sum self.now.sizes }
    {
        self.sizes.total()
    }

    /// The work with a number, counted from 0, and its place among the lanes and takers, which show what
    /// is open by these books.
    pub(crate) fn find(&self, valid: &Valid, _books: &Books, number: usize) -> (usize, Work)
        requires runs { BooksRun valid.now.view _books.now }
        requires works { AreWorksOf valid.now.view self.now }
        requires shown { AreShown valid.now.view _books.now self.now }
        requires number { number < sum self.now.sizes }
        ensures numbered { IsOpenWork valid.now.view _books.now number result.1 }
        ensures place { StandsThere self.now result.0 result.1 }
        ensures names { HasNames valid.now.view result.1 }
    {
        valid.known();
        let (place, rest) = self.sizes.place_of(number);
        if place < self.lanes.len() {
            let index = self.windows[place].places()[rest];
            (place, Work::Message(self.lanes[place], index))
        } else {
            (place, Work::Take(self.takers[place - self.lanes.len()]))
        }
    }

    // Looks again at what stands at a place, after a work, and says how many works there are.
    fn size_at(
        &mut self,
        valid: &Valid,
        books: &Books,
        work: &Work,
        place: usize,
    ) -> Result<usize, AllocError>
        requires runs { BooksRun valid.now.view books.now }
        requires works { AreWorksOf valid.now.view self.old }
        requires place { place < length self.old.sizes }
        requires may { MayLookAt valid.now.view books.now self.old work.now place }
        ensures { IfOk result (LooksAgain valid.now.view books.now self.old self.new place) }
    {
        valid.known();
        if place < self.lanes.len() {
            let lane = self.lanes[place];
            look(
                valid,
                books,
                &lane,
                work.stale_on(&lane),
                &mut self.windows[place],
            )?;
            Ok(self.windows[place].places().len())
        } else {
            let taker = self.takers[place - self.lanes.len()];
            Ok(usize::from(can_take(valid, books, taker)))
        }
    }

    /// Looks again at what stands at a place, after a work. The error is want of memory.
    pub(crate) fn look(
        &mut self,
        valid: &Valid,
        books: &Books,
        work: &Work,
        place: usize,
    ) -> Result<(), AllocError>
        requires runs { BooksRun valid.now.view books.now }
        requires works { AreWorksOf valid.now.view self.old }
        requires place { place < length self.old.sizes }
        requires may { MayLookAt valid.now.view books.now self.old work.now place }
        ensures works { OnOk result (AreWorksOf valid.now.view self.new) }
        ensures looked { OnOk result (LookedAt valid.now.view books.now self.old self.new place) }
    {
        let size = self.size_at(valid, books, work, place)?;
        self.sizes.set(place, size);
        Ok(())
    }

    /// Looks again at what stands at some places, after a work. The error is want of memory.
    pub(crate) fn look_at(
        &mut self,
        valid: &Valid,
        books: &Books,
        work: &Work,
        places: &[usize],
    ) -> Result<(), AllocError>
        requires runs { BooksRun valid.now.view books.now }
        requires works { AreWorksOf valid.now.view self.old }
        requires there { All (λ place. place < length self.old.sizes) places.now }
        requires may { (place : ℕ) → MayLookAt valid.now.view books.now self.old work.now place }
        ensures { OnOk result (LookedFor valid.now.view books.now self.old self.new places.now) }
    {
        for place in places {
            self.look(valid, books, work, *place)?;
        }
        Ok(())
    }
}
