//! One emitted list, by the ids of its records.
ghost use Rattle.std.specs.Prelude.{◌≡◌, ◌++◌, ◌∷◌, [], length, slice_get, not, false, IfOk, OnOk, OnErr};
ghost use Rattle.std.specs.List.{list_any};
ghost use Rattle.std.specs.Option.{option_and_then};
ghost use Rattle.messages.specs.EmittedIds.{id_in, is_row_with, is_seal_of, with_id};
ghost use Rattle.messages.specs.declared.message.Message.TheVariants.{Seal};

use crate::message::Message;
use crate::subject::Subject;
use blz_pool::Id;
use blz_value::{HashKey, Record};
use indexmap::IndexMap;
use std::alloc::{AllocError, Global};
use std::marker::Model;

/// The messages that a sender of a stream emitted, in order: what stands in the list once, and the count
/// of a seal, which is 0 of a record. So no two are about one record or about one partition.
#[derive(Drop)]
pub struct Emitted {
    counts: IndexMap<Subject, u32, HashKey>,
}

impl Model for Emitted {
    ghost use Rattle.std.specs.Prelude.{List, map};
    ghost use Rattle.messages.specs.declared.message.Message.{Message};
    ghost use Rattle.messages.specs.Subject.{message_of};

    ghost Value = { List Message };

    ghost view = { λ list. map message_of list.counts.entries };
}

impl Emitted {
    /// The list without messages, which hashes under a key.
    pub fn new(alloc: Global, key: HashKey) -> Emitted
        ensures { result ≡ [] }
    {
        Emitted {
            counts: IndexMap::with_hasher(alloc, key),
        }
    }

    /// Takes all messages away. It takes no memory.
    pub fn clear(&mut self)
        ensures { self.new ≡ [] }
    {
        self.counts.clear();
    }

    /// The number of messages.
    pub fn len(&self) -> usize
        ensures { result ≡ length self.now }
    {
        self.counts.len()
    }

    /// The id of the record at a place, counted from 0; None where a seal stands, and past the end.
    pub fn row(&self, index: usize) -> Option<Id>
        ensures { result ≡ option_and_then id_in (slice_get self.now index) }
    {
        match self.counts.get_index(index) {
            Some((Subject::Row(id), _)) => Some(*id),
            Some((Subject::Partition(_), _)) | None => None,
        }
    }

    /// A message at a place, of its own; None past the end. The error is want of memory.
    pub fn message(&self, index: usize) -> Result<Option<Message>, AllocError>
        ensures { IfOk result (λ message. message ≡ slice_get self.now index) }
    {
        match self.counts.get_index(index) {
            Some((Subject::Row(id), _)) => Ok(Some(Message::Row(*id))),
            Some((Subject::Partition(key), count)) => Ok(Some(Message::Seal {
                key: key.copy()?,
                count: *count,
            })),
            None => Ok(None),
        }
    }

    /// Whether the record with an id stands in the list.
    pub fn has_row(&self, id: Id) -> bool
        ensures { result ≡ list_any (is_row_with id) self.now }
    {
        self.counts.contains_key(&Subject::Row(id))
    }

    /// Whether a seal of a partition stands in the list. The error is want of memory.
    pub fn has_seal(&self, key: &Record) -> Result<bool, AllocError>
        ensures { IfOk result (λ has. has ≡ list_any (is_seal_of key.now) self.now) }
    {
        Ok(self.counts.contains_key(&Subject::Partition(key.copy()?)))
    }

    /// Puts a record behind the others, unless it stands there, and gives whether it is new. The error is
    /// want of memory and leaves the list as it was.
    pub fn add_row(&mut self, id: Id) -> Result<bool, AllocError>
        ensures new { IfOk result (λ is_new. is_new ≡ not (list_any (is_row_with id) self.old)) }
        ensures ok { OnOk result (self.new ≡ with_id self.old id) }
        ensures err { OnErr result (self.new ≡ self.old) }
    {
        let known = self.counts.insert(Subject::Row(id), 0)?;
        Ok(known.is_none())
    }

    /// Puts a seal of a partition behind the others that has none yet. The error is want of memory and
    /// leaves the list as it was.
    pub fn push_seal(&mut self, key: Record, count: u32) -> Result<(), AllocError>
        requires { list_any (is_seal_of key) self.old ≡ false }
        ensures ok { OnOk result (self.new ≡ self.old ++ Seal key count ∷ []) }
        ensures err { OnErr result (self.new ≡ self.old) }
    {
        self.counts.insert(Subject::Partition(key), count)?;
        Ok(())
    }
}
