//! Schedules from a seed: turn by turn a draw chooses among the open works, until none is open.
//!
//! The works of a lane are shown by a window, which looks again after a turn that may have changed them,
//! and only at what that may have made stale and at what is new; a tree of the windows' sizes finds a work
//! by its number.
ghost use Rattle.std.specs.Prelude.{◌≡◌, ◌<◌, ◌++◌, ◌∷◌, [], ℕ, true, map, IfOk, OnOk, length, sum};
ghost use Rattle.sched_text.specs.Text.{IsPrintable};
ghost use Rattle.sched_net.specs.ScheduleLines.{events_of};
ghost use Rattle.sched_net.specs.Net.{BooksRun};
ghost use Rattle.sched_run.specs.Made.{says_again, chosen_events};
ghost use Rattle.sched_run.specs.Making.{RunsFirst, AnswersMade, LeavesMade, AnswersNumbered, LeavesNumbered, CountFromOne};
ghost use Rattle.sched_run.specs.Naming.{CanBeWritten};
ghost use Rattle.sched_run.specs.Code.Making.{EndsNet, fault_with, Goes, GoesOn, IsDue, AppliesEvents, IsReady, Turns, StandsMade};
ghost use Rattle.sched_run.specs.Code.Watch.{IsUntouched, IsWatched, StillShows};
ghost use Rattle.sched_run.specs.Code.Works.{AreWorksOf, AreShown, HasNames, IsOpenWork, MayLookAt, work_event};

use crate::limits::MAX_EVENTS;
use crate::made::Made;
use crate::watch::Watch;
use crate::works::Work;
use messages::EventFault;
use sched_net::{MakeFault, Net};
use sched_text::Schedule;
use sched_turns::Draws;
use std::alloc::AllocError;

// A schedule that is being made: what is open, the draws, and the events so far.
#[derive(Drop)]
struct Making {
    watch: Watch,
    draws: Draws,
    made: Made,
}

// The fault of the event with a number; an open work is never refused.
fn fault_at(fault: EventFault, event: u32) -> MakeFault
    requires { EndsNet fault }
    ensures { result ≡ fault_with fault event }
{
    match fault {
        EventFault::TooManyRows => MakeFault::TooManyRows { event },
        EventFault::TooManyMessages => MakeFault::TooManyMessages { event },
        EventFault::NoMemory => MakeFault::NoMemory,
        EventFault::NoInstance | EventFault::NoMessage | EventFault::NothingToTake => {
            unreachable!()
        }
    }
}

// Whether a number says that an event comes once more.
fn says_again(number: u64) -> bool
    ensures { result ≡ says_again number }
{
    (number / 65_536) % 8 == 0
}

// Applies the event of a work, which is one event more.
fn apply(net: &mut Net<'_>, made: &mut Made, work: &Work) -> Result<(), MakeFault>
    requires legal { GoesOn net.old.valid.now.view (map (λ b. program (b.vtable, b.value)) net.old.shells.items) (map (λ b. kept (b.vtable, b.value)) net.old.shells.items) net.old.books made.old (work_event work.now) }
    requires names { HasNames net.old.valid.now.view work.now }
    requires written { CanBeWritten net.old.valid.now.view made.old }
    ensures applies { AppliesEvents net.old.valid.now.view (map (λ b. program (b.vtable, b.value)) net.old.shells.items) (map (λ b. kept (b.vtable, b.value)) net.old.shells.items) (map (λ b. kept (b.vtable, b.value)) net.new.shells.items) net.old.books net.new.books made.old made.new (work_event work.now ∷ []) result }
    ensures written { OnOk result (CanBeWritten net.old.valid.now.view made.new) }
    ensures events { OnOk result (made.new ≡ made.old ++ work_event work.now ∷ []) }
    ensures valid { net.new.valid ≡ net.old.valid }
    ensures kinds { map (λ b. kind (b.vtable, b.value)) net.new.shells.items ≡ map (λ b. kind (b.vtable, b.value)) net.old.shells.items }
    ensures loaded { map (λ b. program (b.vtable, b.value)) net.new.shells.items ≡ map (λ b. program (b.vtable, b.value)) net.old.shells.items }
{
    if made.len() >= MAX_EVENTS {
        return Err(MakeFault::TooManyEvents);
    }
    let number = made.len() as u32 + 1;
    let event = work.event();
    if let Err(fault) = net.numbered_event(&event) {
        return Err(fault_at(fault, number));
    }
    made.push(event)?;
    Ok(())
}

// Applies a work that is chosen by a number, and once more where the number says so and it isn't a
// take.
fn apply_chosen(
    net: &mut Net<'_>,
    made: &mut Made,
    number: u64,
    work: &Work,
) -> Result<(), MakeFault>
    requires due { IsDue net.old.valid.now.view (map (λ b. program (b.vtable, b.value)) net.old.shells.items) (map (λ b. kept (b.vtable, b.value)) net.old.shells.items) net.old.books made.old (work_event work.now) }
    requires names { HasNames net.old.valid.now.view work.now }
    requires written { CanBeWritten net.old.valid.now.view made.old }
    ensures applies { AppliesEvents net.old.valid.now.view (map (λ b. program (b.vtable, b.value)) net.old.shells.items) (map (λ b. kept (b.vtable, b.value)) net.old.shells.items) (map (λ b. kept (b.vtable, b.value)) net.new.shells.items) net.old.books net.new.books made.old made.new (chosen_events number (work_event work.now)) result }
    ensures written { OnOk result (CanBeWritten net.old.valid.now.view made.new) }
    ensures events { OnOk result (made.new ≡ made.old ++ chosen_events number (work_event work.now)) }
    ensures valid { net.new.valid ≡ net.old.valid }
    ensures kinds { map (λ b. kind (b.vtable, b.value)) net.new.shells.items ≡ map (λ b. kind (b.vtable, b.value)) net.old.shells.items }
    ensures loaded { map (λ b. program (b.vtable, b.value)) net.new.shells.items ≡ map (λ b. program (b.vtable, b.value)) net.old.shells.items }
{
    net.known();
    apply(net, made, work)?;
    if !work.is_take() && says_again(number) {
        return apply(net, made, work);
    }
    Ok(())
}

// The works of a net. The error is want of memory.
fn watch_of(net: &Net<'_>) -> Result<Watch, AllocError>
    requires { BooksRun net.now.valid.now.view net.now.books }
    ensures works { IfOk result (λ watch. AreWorksOf net.now.valid.now.view watch.works) }
    ensures watched { IfOk result (IsWatched net.now.valid.now.view) }
    ensures shown { IfOk result (λ watch. AreShown net.now.valid.now.view net.now.books watch.works) }
{
    Watch::of(net.alloc(), net.valid(), net.books())
}

// The work of a net with a number, counted from 0.
fn work_at(watch: &Watch, net: &Net<'_>, number: usize) -> Work
    requires runs { BooksRun net.now.valid.now.view net.now.books }
    requires works { AreWorksOf net.now.valid.now.view watch.now.works }
    requires shown { AreShown net.now.valid.now.view net.now.books watch.now.works }
    requires number { number < sum watch.now.works.sizes }
    ensures numbered { IsOpenWork net.now.valid.now.view net.now.books number result }
    ensures names { HasNames net.now.valid.now.view result }
{
    let (_, work) = watch.works.find(net.valid(), net.books(), number);
    work
}

// Looks again where a work may have changed what is open. The error is want of memory.
fn look_after(watch: &mut Watch, net: &Net<'_>, work: &Work) -> Result<(), AllocError>
    requires runs { BooksRun net.now.valid.now.view net.now.books }
    requires works { AreWorksOf net.now.valid.now.view watch.old.works }
    requires watched { IsWatched net.now.valid.now.view watch.old }
    requires names { HasNames net.now.valid.now.view work.now }
    requires may { (place : ℕ) → MayLookAt net.now.valid.now.view net.now.books watch.old.works work.now place }
    requires rest { (place : ℕ) → IsUntouched net.now.valid.now.view watch.old.works work.now place → StillShows net.now.valid.now.view net.now.books watch.old.works place }
    ensures works { OnOk result (AreWorksOf net.now.valid.now.view watch.new.works) }
    ensures watched { OnOk result (IsWatched net.now.valid.now.view watch.new) }
    ensures shown { OnOk result (AreShown net.now.valid.now.view net.now.books watch.new.works) }
{
    watch.look_after(net.valid(), net.books(), work)
}

impl Making {
    // No event yet.
    fn of(net: &Net<'_>, seed: u64) -> Result<Making, AllocError>
        requires { BooksRun net.now.valid.now.view net.now.books }
        ensures ready { IfOk result (IsReady net.now.valid.now.view net.now.books) }
        ensures draws { IfOk result (λ making. making.draws ≡ seed) }
        ensures made { IfOk result (λ making. making.made ≡ []) }
    {
        Ok(Making {
            watch: watch_of(net)?,
            draws: Draws::of(seed),
            made: Made::new(net.alloc()),
        })
    }

    // The events that were made.
    fn into_made(self) -> Made
        ensures { result ≡ self.made }
    {
        self.made
    }

    // One turn, where something is open: a draw chooses a work.
    fn turn(&mut self, net: &mut Net<'_>) -> Result<(), MakeFault>
        requires goes { Goes net.old.valid.now.view (map (λ b. program (b.vtable, b.value)) net.old.shells.items) (map (λ b. kept (b.vtable, b.value)) net.old.shells.items) net.old.books self.old.made }
        requires ready { IsReady net.old.valid.now.view net.old.books self.old }
        requires some { 0 < sum self.old.watch.works.sizes }
        ensures turns { Turns net.old.valid.now.view (map (λ b. program (b.vtable, b.value)) net.old.shells.items) (map (λ b. kept (b.vtable, b.value)) net.old.shells.items) (map (λ b. kept (b.vtable, b.value)) net.new.shells.items) net.old.books net.new.books self.old self.new result }
        ensures ready { OnOk result (IsReady net.old.valid.now.view net.new.books self.new) }
        ensures more { OnOk result (length self.old.made < length self.new.made) }
        ensures valid { net.new.valid ≡ net.old.valid }
        ensures kinds { map (λ b. kind (b.vtable, b.value)) net.new.shells.items ≡ map (λ b. kind (b.vtable, b.value)) net.old.shells.items }
        ensures loaded { map (λ b. program (b.vtable, b.value)) net.new.shells.items ≡ map (λ b. program (b.vtable, b.value)) net.old.shells.items }
    {
        net.known();
        let number = self.draws.next_number();
        let total = self.watch.works.total();
        let work = work_at(&self.watch, net, number as usize % total);
        apply_chosen(net, &mut self.made, number, &work)?;
        look_after(&mut self.watch, net, &work)?;
        Ok(())
    }
}

// The events of a seed, before a fault ends the net.
fn made_of(net: &mut Net<'_>, seed: u64) -> Result<Made, MakeFault>
    requires { RunsFirst net.old.valid.now.view (map (λ b. program (b.vtable, b.value)) net.old.shells.items) (map (λ b. kept (b.vtable, b.value)) net.old.shells.items) net.old.books }
    ensures made { AnswersNumbered net.old.valid.now.view (map (λ b. program (b.vtable, b.value)) net.old.shells.items) (map (λ b. kept (b.vtable, b.value)) net.old.shells.items) net.old.books seed result }
    ensures stands { IfOk result (StandsMade net.old.valid.now.view (map (λ b. program (b.vtable, b.value)) net.old.shells.items) (map (λ b. kept (b.vtable, b.value)) net.old.shells.items) (map (λ b. kept (b.vtable, b.value)) net.new.shells.items) net.old.books net.new.books) }
    ensures written { IfOk result (CanBeWritten net.old.valid.now.view) }
    ensures valid { net.new.valid ≡ net.old.valid }
    ensures kinds { map (λ b. kind (b.vtable, b.value)) net.new.shells.items ≡ map (λ b. kind (b.vtable, b.value)) net.old.shells.items }
    ensures loaded { map (λ b. program (b.vtable, b.value)) net.new.shells.items ≡ map (λ b. program (b.vtable, b.value)) net.old.shells.items }
{
    net.known();
    let mut making = Making::of(net, seed)?;
    while making.watch.works.total() > 0 {
        making.turn(net)?;
    }
    Ok(making.into_made())
}

/// Makes the schedule of a seed by numbers: the events of the generator, which it applies to the net.
/// Afterwards nothing is left to deliver, to order or to take.
///
/// TooManyRows and TooManyMessages come at the first event that meets the limit, and TooManyEvents
/// where an event more than 1,000,000 is due; a fault ends the net. A turn takes as many steps as the
/// works stand in levels, beside its event and a look at each lane that it may change.
pub fn make_numbered(net: &mut Net<'_>, seed: u64) -> Result<Made, MakeFault>
    requires { RunsFirst net.old.valid.now.view (map (λ b. program (b.vtable, b.value)) net.old.shells.items) (map (λ b. kept (b.vtable, b.value)) net.old.shells.items) net.old.books }

    // Of whatever data the net stood for: the events and the causes of faults, and what the net
    // stands for then.
    ensures made { AnswersNumbered net.old.valid.now.view (map (λ b. program (b.vtable, b.value)) net.old.shells.items) (map (λ b. kept (b.vtable, b.value)) net.old.shells.items) net.old.books seed result }
    ensures leaves { LeavesNumbered net.old.valid.now.view (map (λ b. program (b.vtable, b.value)) net.old.shells.items) (map (λ b. kept (b.vtable, b.value)) net.old.shells.items) (map (λ b. kept (b.vtable, b.value)) net.new.shells.items) net.old.books net.new.books result }

    // They can be written with the names of the topology.
    ensures written { IfOk result (CanBeWritten net.old.valid.now.view) }

    ensures valid { net.new.valid ≡ net.old.valid }
    ensures kinds { map (λ b. kind (b.vtable, b.value)) net.new.shells.items ≡ map (λ b. kind (b.vtable, b.value)) net.old.shells.items }
    ensures loaded { map (λ b. program (b.vtable, b.value)) net.new.shells.items ≡ map (λ b. program (b.vtable, b.value)) net.old.shells.items }
{
    match made_of(net, seed) {
        Ok(made) => Ok(made),
        Err(fault) => Err(net.fail(fault)),
    }
}

// The schedule of events that were made of a net. The error is want of memory.
fn schedule_of(net: &Net<'_>, made: &Made) -> Result<Schedule, AllocError>
    requires { CanBeWritten net.now.valid.now.view made.now }
    ensures events { IfOk result (λ schedule. events_of net.now.valid.now.view schedule ≡ made.now) }
    ensures numbers { IfOk result CountFromOne }
    ensures printable { IfOk result IsPrintable }
{
    made.schedule(net.alloc(), net.valid())
}

/// Makes the schedule of a seed: the events of the generator, which it applies to the net, on lines
/// numbered from 1. Afterwards nothing is left to deliver, to order or to take.
///
/// TooManyRows and TooManyMessages come at the first event that meets the limit, and TooManyEvents
/// where an event more than 1,000,000 is due; a fault ends the net. A turn takes as many steps as the
/// works stand in levels, beside its event and a look at each lane that it may change.
pub fn make(net: &mut Net<'_>, seed: u64) -> Result<Schedule, MakeFault>
    requires { RunsFirst net.old.valid.now.view (map (λ b. program (b.vtable, b.value)) net.old.shells.items) (map (λ b. kept (b.vtable, b.value)) net.old.shells.items) net.old.books }

    // Of whatever data the net stood for: the schedule and the causes of faults, and what the net
    // stands for then.
    ensures made { AnswersMade net.old.valid.now.view (map (λ b. program (b.vtable, b.value)) net.old.shells.items) (map (λ b. kept (b.vtable, b.value)) net.old.shells.items) net.old.books seed result }
    ensures leaves { LeavesMade net.old.valid.now.view (map (λ b. program (b.vtable, b.value)) net.old.shells.items) (map (λ b. kept (b.vtable, b.value)) net.old.shells.items) (map (λ b. kept (b.vtable, b.value)) net.new.shells.items) net.old.books net.new.books result }

    ensures numbers { IfOk result CountFromOne }
    ensures printable { IfOk result IsPrintable }

    ensures valid { net.new.valid ≡ net.old.valid }
    ensures kinds { map (λ b. kind (b.vtable, b.value)) net.new.shells.items ≡ map (λ b. kind (b.vtable, b.value)) net.old.shells.items }
    ensures loaded { map (λ b. program (b.vtable, b.value)) net.new.shells.items ≡ map (λ b. program (b.vtable, b.value)) net.old.shells.items }
{
    let made = make_numbered(net, seed)?;
    match schedule_of(net, &made) {
        Ok(schedule) => Ok(schedule),
        Err(_) => Err(net.fail(MakeFault::NoMemory)),
    }
}
