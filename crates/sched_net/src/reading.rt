//! What is read of a net: its emitted lists, their records, and what is held.
ghost use Rattle.std.specs.Prelude.{◌≡◌, ◌<◌, ◌≤◌, [], length, slice_get, IfOk, Some, None, option_copied};
ghost use Rattle.std.specs.List.{All, count_by};
ghost use Rattle.std.specs.Option.{option_and_then};
ghost use Rattle.blz_set.specs.RecordSet.{row_limit};
ghost use Rattle.blz_set.specs.References.{shown};
ghost use Rattle.blz_value.specs.Sets.{set_of};
ghost use Rattle.topo_forms.specs.Messages.{row_in, rows_in};
ghost use Rattle.topo_forms.specs.View.{replicas_of, stream_replicas};
ghost use Rattle.inbox.specs.Completeness.{held_count_at};
ghost use Rattle.inbox.specs.Executions.{emitted_list, contents};
ghost use Rattle.messages.specs.Ids.{IsGiven, message_with_id};
ghost use Rattle.inbox.specs.Wiring.{wiring_of};
ghost use Rattle.inbox.specs.Limits.{all_messages};
ghost use Rattle.messages.specs.Lists.{read_list};
ghost use Rattle.sched_net.specs.Net.{BooksRun};
ghost use Rattle.sched_net.specs.Reading.{IsRead, ReadEmitted, ReadInOrder};
ghost use Rattle.sched_net.specs.Code.Records.{is_record};
ghost use Rattle.sched_net.specs.Seen.{seat_seen, IsHeldBy};

use crate::net::Net;
use crate::seated::{Ear, Seated};
use blz_pool::Pool;
use blz_set::{RecordSet, SetFault};
use blz_value::Record;
use messages::MessageList;
use std::alloc::{AllocError, Global};

// Copies of the rows behind references.
fn copies_of(alloc: Global, refs: &[&Record]) -> Result<Vec<Record>, AllocError>
    ensures { IfOk result (λ rows. rows.items ≡ shown refs.now) }
{
    let mut rows = Vec::with_capacity(alloc, refs.len())?;
    for row in refs {
        rows.push(row.copy()?)?;
    }
    Ok(rows)
}

// The set of some rows, of which not too many are distinct.
fn set_within(rows: Vec<Record>) -> Result<RecordSet, AllocError>
    requires { length (set_of rows.items) ≤ row_limit }
    ensures { IfOk result (λ set. set ≡ set_of rows.items) }
{
    match RecordSet::from_rows(rows) {
        Ok(set) => Ok(set),
        Err(SetFault::NoMemory) => Err(AllocError),
        Err(SetFault::TooManyRows) => unreachable!(),
    }
}

// How many of some messages are records.
fn count_records(messages: &MessageList<'_>) -> usize
    ensures { result ≡ count_by is_record messages.now }
{
    let mut count = 0;
    for index in 0..messages.len() {
        if messages.row(index).is_some() {
            count += 1;
        }
    }
    count
}

// How many records wait in an inbox; an instance that takes entries has none.
fn held_by(ear: &Ear) -> u64
    ensures { IsHeldBy ear.now result }
{
    match ear {
        Ear::Hears(inbox, _) => inbox.held(),
        Ear::Takes(_) => 0,
    }
}

impl Net<'_> {
    // The record at a place of some messages, None where a seal stands, and past the end.
    fn row_at(&self, messages: &MessageList<'_>, index: usize) -> Option<&Record>
        requires { All (IsGiven self.now.books.lists.records) messages.now }
        ensures { option_copied result ≡ option_and_then (λ m. row_in (message_with_id self.now.books.lists.records m)) (slice_get messages.now index) }
    {
        match messages.row(index) {
            Some(id) => Some(self.books.lists.pool().get(id)),
            None => None,
        }
    }

    // The records of some messages, in their order.
    fn rows_of(&self, messages: &MessageList<'_>) -> Result<Vec<&Record>, AllocError>
        requires { All (IsGiven self.now.books.lists.records) messages.now }
        ensures { IfOk result (λ rows. shown rows.items ≡ rows_in (read_list self.now.books.lists.records messages.now)) }
    {
        let mut rows = Vec::with_capacity(self.alloc, messages.len())?;
        for index in 0..messages.len() {
            if let Some(row) = self.row_at(messages, index) {
                rows.push(row)?;
            }
        }
        Ok(rows)
    }

    // The books of an instance, None where it isn't there.
    fn seat(&self, component: u32, replica: u32) -> Option<&Seated>
        requires { BooksRun self.now.valid.now.view self.now.books }
        ensures { option_copied result ≡ seat_seen self.now.valid.now.view self.now.books.seats.items component replica }
    {
        if component >= self.valid.component_count() {
            return None;
        }
        if replica >= self.valid.replicas(component) {
            return None;
        }
        Some(self.books.seat_at(self.valid, component, replica))
    }

    /// The length of the emitted list of a sending replica of a stream; 0 where it isn't there.
    pub fn emitted(&self, stream: u32, replica: u32) -> usize
        requires runs { BooksRun self.now.valid.now.view self.now.books }
        ensures length { replica < stream_replicas self.now.valid.now.view stream → IsRead self.now.valid.now.view self.now.books (λ given x. length (emitted_list (wiring_of self.now.valid.now.view) given x stream replica)) result }
        ensures past { stream_replicas self.now.valid.now.view stream ≤ replica → result ≡ 0 }
    {
        self.valid.known();
        self.books.messages(self.valid, stream, replica).len()
    }

    /// The length of all emitted lists together.
    pub fn message_count(&self) -> usize
        requires { BooksRun self.now.valid.now.view self.now.books }
        ensures { IsRead self.now.valid.now.view self.now.books (all_messages (wiring_of self.now.valid.now.view)) result }
    {
        self.valid.known();
        self.books.lists.count()
    }

    /// The record at a place of the emitted list of a sending replica of a stream, counted from 0. None
    /// exactly past the end of the list, where a seal stands, and where the replica isn't there.
    pub fn record_at(&self, stream: u32, replica: u32, index: u32) -> Option<&Record>
        requires runs { BooksRun self.now.valid.now.view self.now.books }
        ensures record { replica < stream_replicas self.now.valid.now.view stream → IsRead self.now.valid.now.view self.now.books (λ given x. option_and_then row_in (slice_get (emitted_list (wiring_of self.now.valid.now.view) given x stream replica) index)) (option_copied result) }
        ensures past { stream_replicas self.now.valid.now.view stream ≤ replica → option_copied result ≡ None }
    {
        self.valid.known();
        let messages = self.books.messages(self.valid, stream, replica);
        self.row_at(&messages, index as usize)
    }

    /// The records of the emitted list of a sending replica of a stream, lent, each once and in record
    /// order; none where it isn't there. Of a replica of an Order component they are what its program
    /// puts out over the first entries of the log (`ordered`). It takes the time of a sort, and memory
    /// for a reference to each message. The error is want of memory.
    pub fn sorted_rows(&self, stream: u32, replica: u32) -> Result<Vec<&Record>, AllocError>
        requires runs { BooksRun self.now.valid.now.view self.now.books }
        ensures contents { replica < stream_replicas self.now.valid.now.view stream → IfOk result (λ rows. IsRead self.now.valid.now.view self.now.books (λ given x. contents (wiring_of self.now.valid.now.view) given x stream replica) (shown rows.items)) }
        ensures ordered { IfOk result (λ rows. ReadInOrder self.now.valid.now.view self.now.books stream replica (shown rows.items)) }
        ensures past { stream_replicas self.now.valid.now.view stream ≤ replica → IfOk result (λ rows. shown rows.items ≡ []) }
    {
        self.valid.known();
        let mut rows = self.rows_of(&self.books.messages(self.valid, stream, replica))?;
        rows.sort_unstable();
        Ok(rows)
    }

    /// The same records as a set of copies, which outlives the net. The error is want of memory.
    pub fn contents(&self, stream: u32, replica: u32) -> Result<RecordSet, AllocError>
        requires runs { BooksRun self.now.valid.now.view self.now.books }
        ensures contents { replica < stream_replicas self.now.valid.now.view stream → IfOk result (IsRead self.now.valid.now.view self.now.books (λ given x. contents (wiring_of self.now.valid.now.view) given x stream replica)) }
        ensures ordered { IfOk result (ReadInOrder self.now.valid.now.view self.now.books stream replica) }
        ensures past { stream_replicas self.now.valid.now.view stream ≤ replica → IfOk result (λ set. set ≡ []) }
    {
        self.valid.known();
        self.books.lists.known();
        let rows = self.rows_of(&self.books.messages(self.valid, stream, replica))?;
        set_within(copies_of(self.alloc, &rows)?)
    }

    /// How many records the emitted list of a sending replica of a stream has; 0 where it isn't there.
    /// It goes through the list and takes no memory.
    pub fn record_count(&self, stream: u32, replica: u32) -> usize
        requires runs { BooksRun self.now.valid.now.view self.now.books }
        ensures count { replica < stream_replicas self.now.valid.now.view stream → IsRead self.now.valid.now.view self.now.books (λ given x. length (contents (wiring_of self.now.valid.now.view) given x stream replica)) result }
        ensures past { stream_replicas self.now.valid.now.view stream ≤ replica → result ≡ 0 }
    {
        self.valid.known();
        count_records(&self.books.messages(self.valid, stream, replica))
    }

    /// The pool of the net: exactly the distinct records of all emitted lists, each once.
    pub fn pool(&self) -> &Pool
        requires runs { BooksRun self.now.valid.now.view self.now.books }
        ensures kept { result.now ≡ self.now.books.lists.records }
        ensures records { ReadEmitted self.now.valid.now.view self.now.books result.now }
    {
        self.valid.known();
        self.books.lists.known();
        self.books.lists.pool()
    }

    /// The number of distinct records of all emitted lists.
    pub fn placed(&self) -> usize
        requires runs { BooksRun self.now.valid.now.view self.now.books }
        ensures count { result ≡ length self.now.books.lists.records }
        ensures records { ReadEmitted self.now.valid.now.view self.now.books self.now.books.lists.records }
    {
        self.pool().len()
    }

    /// How many records wait in the inbox of an instance, with their ports, each counted once; 0 of an
    /// Order component, and where the instance isn't there.
    pub fn held(&self, component: u32, replica: u32) -> u64
        requires runs { BooksRun self.now.valid.now.view self.now.books }
        ensures { IsRead self.now.valid.now.view self.now.books (λ given x. held_count_at (wiring_of self.now.valid.now.view) x component replica) result }
    {
        self.valid.known();
        match self.seat(component, replica) {
            Some(seated) => held_by(&seated.ear),
            None => 0,
        }
    }
}
