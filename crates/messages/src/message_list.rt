//! An emitted list that is lent.
ghost use Rattle.std.specs.Prelude.{◌≡◌, [], length, slice_get, IfOk};
ghost use Rattle.std.specs.Option.{option_and_then};
ghost use Rattle.messages.specs.EmittedIds.{id_in};

use crate::emitted::Emitted;
use crate::message::Message;
use blz_pool::Id;
use std::alloc::AllocError;
use std::marker::Model;

/// The messages of an emitted list, lent, or none.
#[derive(Drop)]
pub struct MessageList<'a> {
    list: Option<&'a Emitted>,
}

impl<'a> Model for MessageList<'a> {
    ghost use Rattle.std.specs.Prelude.{List, [], option_copied, unwrap_or};
    ghost use Rattle.messages.specs.declared.message.Message.{Message};

    ghost Value = { List Message };

    ghost view = { λ lent. unwrap_or (option_copied lent.list) [] };
}

impl<'a> MessageList<'a> {
    /// The list without messages.
    pub fn none() -> MessageList<'a>
        ensures { result ≡ [] }
    {
        MessageList { list: None }
    }

    /// The messages of a list.
    pub(crate) fn of(list: &'a Emitted) -> MessageList<'a>
        ensures { result ≡ list.now }
    {
        MessageList { list: Some(list) }
    }

    /// The number of messages.
    pub fn len(&self) -> usize
        ensures { result ≡ length self.now }
    {
        match self.list {
            Some(list) => list.len(),
            None => 0,
        }
    }

    /// The id of the record at a place, counted from 0; None where a seal stands, and past the end.
    pub fn row(&self, index: usize) -> Option<Id>
        ensures { result ≡ option_and_then id_in (slice_get self.now index) }
    {
        match self.list {
            Some(list) => list.row(index),
            None => None,
        }
    }

    /// A message at a place, of its own; None past the end. The error is want of memory.
    pub fn message(&self, index: usize) -> Result<Option<Message>, AllocError>
        ensures { IfOk result (λ message. message ≡ slice_get self.now index) }
    {
        match self.list {
            Some(list) => list.message(index),
            None => Ok(None),
        }
    }
}
