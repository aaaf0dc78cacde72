//! What is emitted and heard: messages by the ids of their records, emitted lists, the log of a sequencer, and
//! what came on each feed of an instance by partition.
#![tactic(auto)]

mod counter;
mod counts;
mod emitted;
mod fault;
mod feed;
mod feeds;
mod keys;
mod known;
mod limits;
mod lists;
mod log;
mod message;
mod message_list;
mod numbers;
mod placing;
mod port;
mod subject;

pub use fault::EventFault;
pub use feeds::Feeds;
pub use keys::key_of;
pub use known::Known;
pub use limits::MAX_MESSAGES;
pub use lists::Lists;
pub use log::Log;
pub use message::Message;
pub use message_list::MessageList;
pub use numbers::NumberSet;
pub use port::Port;
