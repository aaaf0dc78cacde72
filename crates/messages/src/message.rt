//! Messages by the ids of their records.
use blz_pool::Id;
use blz_value::Record;

/// What comes on a feed: a record, by its id in a pool, or the seal of a partition, with the number
/// of its records.
#[derive(Drop)]
pub enum Message {
    Row(Id),
    Seal { key: Record, count: u32 },
}
