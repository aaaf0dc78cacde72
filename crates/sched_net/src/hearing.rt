//! How an instance hears messages: they come to its inbox, and what they set off is emitted.
ghost use Rattle.std.specs.Prelude.{◌≡◌, ◌<◌, ◌⊎◌, ◌∷◌, true, [], Some, Err, length, map, slice_get, slice_index_or, OnOk, IfOk, IfErr};
ghost use Rattle.std.specs.List.{All};
ghost use Rattle.topo_forms.specs.View.{replicas_of};
ghost use Rattle.inbox.specs.Events.{batch, deliver};
ghost use Rattle.messages.specs.Ids.{IsGiven};
ghost use Rattle.inbox.specs.SetOffs.{AreGivenTo, set_off_read};
ghost use Rattle.inbox.specs.Wiring.{feeds_for};
ghost use Rattle.sched_net.specs.Net.{Runs, BooksRun, EventAnswers, EventLeaves};
ghost use Rattle.sched_net.specs.Numbered.{numbered_parts};
ghost use Rattle.inbox.specs.Places.{instance_place};
ghost use Rattle.messages.specs.declared.fault.EventFault.TheVariants.{NoMemory};
ghost use Rattle.sched_net.specs.Code.Parts.{hears_itself, PairsAnswer};
ghost use Rattle.sched_net.specs.Code.Hearing.{EarCanHear, EarHears, KnowsMore, OneHears, HearsParts, HearingAnswers, HearingLeaves};

use crate::books::Books;
use crate::numbered::{Nearby, NumberedPart};
use crate::seated::{Ear, Seated};
use bloom_eval::Component;
use bloom_forms::Mode;
use blz_pool::Pool;
use inbox::{SetOffIds, emit_at};
use messages::{EventFault, Known, Message};
use sched_text::Part;
use std::alloc::{AllocError, Global};
use topo_forms::Valid;

// Messages are known from now on, by the numbers of their feeds and by their indexes.
fn know_all(known: &mut Known, indexes: &[(u32, u32)]) -> Result<(), AllocError>
    ensures { OnOk result (KnowsMore known.old indexes.now known.new) }
{
    for index in indexes {
        known.know(index.0, index.1)?;
    }
    Ok(())
}

// Hears messages at once, and knows their indexes.
fn hear_by(
    ear: &mut Ear,
    pool: &Pool,
    pairs: &[(u32, Message)],
    indexes: &[(u32, u32)],
) -> Result<SetOffIds, AllocError>
    requires { EarCanHear pool.now pairs.now ear.old }
    ensures hears { IfOk result (λ set. EarHears pool.now pairs.now indexes.now (set_off_read pool.now set) ear.old ear.new) }
    ensures given { IfOk result (λ set. AreGivenTo pool.now set) }
{
    let Ear::Hears(inbox, known) = ear else {
        unreachable!()
    };
    let set = inbox.hear_batch(pool, pairs)?;
    know_all(known, indexes)?;
    Ok(set)
}

// The instance at a place hears.
fn hear_at(
    seats: &mut Vec<Seated>,
    place: usize,
    pool: &Pool,
    pairs: &[(u32, Message)],
    indexes: &[(u32, u32)],
) -> Result<SetOffIds, AllocError>
    requires place { place < length seats.old.items }
    requires can { (was : _) → slice_get seats.old.items place ≡ Some was → EarCanHear pool.now pairs.now was.ear }
    ensures hears { IfOk result (λ set. OneHears pool.now pairs.now indexes.now (set_off_read pool.now set) place seats.old.items seats.new.items) }
    ensures given { IfOk result (λ set. AreGivenTo pool.now set) }
{
    hear_by(&mut seats[place].ear, pool, pairs, indexes)
}

// Whether an instance is there and hears messages itself.
fn hears_itself(valid: &Valid, component: u32, replica: u32) -> bool
    ensures { result ≡ hears_itself valid.now.view component replica }
{
    component < valid.component_count()
        && replica < valid.replicas(component)
        && !matches!(valid.mode(component), Mode::Order)
}

// Parts by numbers.
fn parts_of(
    alloc: Global,
    valid: &Valid,
    component: u32,
    parts: &[Part],
) -> Result<Vec<NumberedPart>, AllocError>
    ensures { IfOk result (λ numbers. numbers.items ≡ numbered_parts valid.now.view component parts.now) }
{
    let mut nearby = Nearby::default();
    let mut numbers = Vec::new(alloc);
    for part in parts {
        numbers.push(nearby.part(valid, component, &part.sent, &part.port))?;
    }
    Ok(numbers)
}

impl Books {
    // An instance hears messages; all but its own books stay.
    fn hear_pairs(
        &mut self,
        valid: &Valid,
        component: u32,
        replica: u32,
        pairs: &[(u32, Message)],
        indexes: &[(u32, u32)],
    ) -> Result<SetOffIds, AllocError>
        requires runs { BooksRun valid.now.view self.old }
        requires hears { hears_itself valid.now.view component replica ≡ true }
        requires feeds { All (λ pair. pair.0 < length (feeds_for valid.now.view component replica)) pairs.now }
        requires given { All (λ pair. IsGiven self.old.lists.records pair.1) pairs.now }
        ensures seats { IfOk result (λ set. OneHears self.old.lists.records pairs.now indexes.now (set_off_read self.old.lists.records set) (instance_place valid.now.view component replica) self.old.seats.items self.new.seats.items) }
        ensures given { IfOk result (λ set. AreGivenTo self.old.lists.records set) }
        ensures lists { self.new.lists ≡ self.old.lists }
        ensures places { self.new.places ≡ self.old.places }
        ensures logs { self.new.logs ≡ self.old.logs }
        ensures ended { self.new.ended ≡ self.old.ended }
    {
        let place = self.places.instance(valid, component, replica);
        hear_at(&mut self.seats, place, self.lists.pool(), pairs, indexes)
    }

    // An instance hears parts; all but its own books stay, and where a part is refused, those too.
    // One part alone makes no list.
    fn hear(
        &mut self,
        alloc: Global,
        valid: &Valid,
        component: u32,
        replica: u32,
        parts: &[NumberedPart],
    ) -> Result<SetOffIds, EventFault>
        requires runs { BooksRun valid.now.view self.old }
        requires hears { hears_itself valid.now.view component replica ≡ true }
        ensures heard { IfOk result (λ set. HearsParts valid.now.view self.old component replica parts.now (set_off_read self.old.lists.records set) self.new.seats.items) }
        ensures given { IfOk result (λ set. AreGivenTo self.old.lists.records set) }
        ensures refused { IfErr result (λ fault. PairsAnswer valid.now.view self.old component replica parts.now (Err fault) (λ pairs. pairs)) }
        ensures stays { IfErr result (λ fault. fault ≡ NoMemory ⊎ (self.new ≡ self.old)) }
        ensures lists { self.new.lists ≡ self.old.lists }
        ensures places { self.new.places ≡ self.old.places }
        ensures logs { self.new.logs ≡ self.old.logs }
        ensures ended { self.new.ended ≡ self.old.ended }
    {
        if let [part] = parts {
            let pair = self.pair_of(valid, component, replica, *part)?;
            let indexes = [(pair.0, part.index)];
            return Ok(self.hear_pairs(valid, component, replica, &[pair], &indexes)?);
        }
        let heard = self.pairs_of(alloc, valid, component, replica, parts)?;
        Ok(self.hear_pairs(valid, component, replica, &heard.pairs, &heard.indexes)?)
    }
}

impl Books {
    // An instance that is there and hears messages itself hears parts, of which there is one.
    fn hear_parts(
        &mut self,
        alloc: Global,
        valid: &Valid,
        shells: &mut Vec<Box<dyn Component>>,
        component: u32,
        replica: u32,
        parts: &[NumberedPart],
    ) -> Result<(), EventFault>
        requires runs { Runs valid.now.view (map (λ b. program b) shells.old.items) (map (λ b. kept b) shells.old.items) self.old }
        requires hears { hears_itself valid.now.view component replica ≡ true }
        requires some { 0 < length parts.now }
        ensures answer { HearingAnswers valid.now.view (map (λ b. program b) shells.old.items) (map (λ b. kept b) shells.old.items) self.old parts.now component replica result }
        ensures leaves { HearingLeaves valid.now.view (map (λ b. program b) shells.old.items) (map (λ b. kept b) shells.old.items) (map (λ b. kept b) shells.new.items) self.old self.new parts.now component replica result }
        ensures kinds { map (λ b. kind b) shells.new.items ≡ map (λ b. kind b) shells.old.items }
        ensures loaded { map (λ b. program b) shells.new.items ≡ map (λ b. program b) shells.old.items }
    {
        valid.known();
        let place = self.places.instance(valid, component, replica);
        let set = self.hear(alloc, valid, component, replica, parts)?;
        emit_at(
            alloc,
            shells,
            place,
            &mut self.lists,
            self.seats[place].outlets.as_slice(),
            &set,
            &mut self.puts,
        )?;
        self.lists.known();
        Ok(())
    }

    // An instance hears a message, where it hears messages itself.
    fn hear_one(
        &mut self,
        alloc: Global,
        valid: &Valid,
        shells: &mut Vec<Box<dyn Component>>,
        component: u32,
        replica: u32,
        part: NumberedPart,
    ) -> Result<(), EventFault>
        requires runs { Runs valid.now.view (map (λ b. program b) shells.old.items) (map (λ b. kept b) shells.old.items) self.old }
        ensures answer { HearingAnswers valid.now.view (map (λ b. program b) shells.old.items) (map (λ b. kept b) shells.old.items) self.old (part ∷ []) component replica result }
        ensures leaves { HearingLeaves valid.now.view (map (λ b. program b) shells.old.items) (map (λ b. kept b) shells.old.items) (map (λ b. kept b) shells.new.items) self.old self.new (part ∷ []) component replica result }
        ensures kinds { map (λ b. kind b) shells.new.items ≡ map (λ b. kind b) shells.old.items }
        ensures loaded { map (λ b. program b) shells.new.items ≡ map (λ b. program b) shells.old.items }
    {
        if !hears_itself(valid, component, replica) {
            return Err(EventFault::NoInstance);
        }
        self.hear_parts(alloc, valid, shells, component, replica, &[part])
    }

    // An instance hears messages by their names at once, where it hears messages itself and there is
    // one.
    fn hear_all(
        &mut self,
        alloc: Global,
        valid: &Valid,
        shells: &mut Vec<Box<dyn Component>>,
        component: u32,
        replica: u32,
        parts: &[Part],
    ) -> Result<(), EventFault>
        requires runs { Runs valid.now.view (map (λ b. program b) shells.old.items) (map (λ b. kept b) shells.old.items) self.old }
        ensures answer { HearingAnswers valid.now.view (map (λ b. program b) shells.old.items) (map (λ b. kept b) shells.old.items) self.old (numbered_parts valid.now.view component parts.now) component replica result }
        ensures leaves { HearingLeaves valid.now.view (map (λ b. program b) shells.old.items) (map (λ b. kept b) shells.old.items) (map (λ b. kept b) shells.new.items) self.old self.new (numbered_parts valid.now.view component parts.now) component replica result }
        ensures kinds { map (λ b. kind b) shells.new.items ≡ map (λ b. kind b) shells.old.items }
        ensures loaded { map (λ b. program b) shells.new.items ≡ map (λ b. program b) shells.old.items }
    {
        if parts.is_empty() {
            return Err(EventFault::NoInstance);
        }
        if !hears_itself(valid, component, replica) {
            return Err(EventFault::NoInstance);
        }
        let numbers = parts_of(alloc, valid, component, parts)?;
        self.hear_parts(alloc, valid, shells, component, replica, numbers.as_slice())
    }

    /// An instance hears a message. NoInstance comes where the instance isn't there, is of an Order
    /// component or has no feed for the message, and NoMessage where it isn't emitted yet.
    pub fn deliver(
        &mut self,
        alloc: Global,
        valid: &Valid,
        shells: &mut Vec<Box<dyn Component>>,
        component: u32,
        replica: u32,
        part: NumberedPart,
    ) -> Result<(), EventFault>
        requires runs { Runs valid.now.view (map (λ b. program b) shells.old.items) (map (λ b. kept b) shells.old.items) self.old }
        ensures answer { EventAnswers valid.now.view (map (λ b. program b) shells.old.items) (map (λ b. kept b) shells.old.items) self.old (deliver part component replica) result }
        ensures leaves { EventLeaves valid.now.view (map (λ b. program b) shells.old.items) (map (λ b. kept b) shells.old.items) (map (λ b. kept b) shells.new.items) self.old self.new (deliver part component replica) result }
        ensures kinds { map (λ b. kind b) shells.new.items ≡ map (λ b. kind b) shells.old.items }
        ensures loaded { map (λ b. program b) shells.new.items ≡ map (λ b. program b) shells.old.items }
    {
        let result = self.hear_one(alloc, valid, shells, component, replica, part);
        self.end_at(&result);
        result
    }

    /// An instance hears messages at once. NoInstance comes also where there is none; else the first
    /// part that is refused decides.
    pub fn deliver_all(
        &mut self,
        alloc: Global,
        valid: &Valid,
        shells: &mut Vec<Box<dyn Component>>,
        component: u32,
        replica: u32,
        parts: &[Part],
    ) -> Result<(), EventFault>
        requires runs { Runs valid.now.view (map (λ b. program b) shells.old.items) (map (λ b. kept b) shells.old.items) self.old }
        ensures answer { EventAnswers valid.now.view (map (λ b. program b) shells.old.items) (map (λ b. kept b) shells.old.items) self.old (batch (numbered_parts valid.now.view component parts.now) component replica) result }
        ensures leaves { EventLeaves valid.now.view (map (λ b. program b) shells.old.items) (map (λ b. kept b) shells.old.items) (map (λ b. kept b) shells.new.items) self.old self.new (batch (numbered_parts valid.now.view component parts.now) component replica) result }
        ensures kinds { map (λ b. kind b) shells.new.items ≡ map (λ b. kind b) shells.old.items }
        ensures loaded { map (λ b. program b) shells.new.items ≡ map (λ b. program b) shells.old.items }
    {
        let result = self.hear_all(alloc, valid, shells, component, replica, parts);
        self.end_at(&result);
        result
    }
}
