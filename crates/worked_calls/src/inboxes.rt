//! What is shown of an inbox that hears batches whose records a small pool keeps.
ghost use Rattle.std.specs.Prelude.{◌≡◌, ◌<◌, All, IfOk, List, OnOk};
ghost use Rattle.blz_value.specs.Record.{Row};
ghost use Rattle.inbox.specs.Inbox.{IsFrom, feeds_in};
ghost use Rattle.messages.specs.Ids.{IsGiven};

use crate::inputs::valid_of;
use crate::shells::pair;
use crate::texts::Text;
use anyhow::{Result, bail, ensure};
use blz_outside::MemFiles;
use blz_pool::{Id, Pool};
use blz_value::{Record, Value};
use inbox::{Inbox, Message, Timesteps};
use std::alloc::Global;
use topo_types::{Mode, Valid};

// A message of a batch: a record by the place of its pair, or the seal of a key, which counts so many
// records.
#[derive(Clone, Copy)]
enum Said {
    Record(usize),
    Seal(i64, u32),
}

// The pairs that are placed in a pool.
const PAIRS: [(i64, i64); 4] = [(1, 10), (1, 11), (2, 20), (1, 12)];

// The batches that are heard, one after the other.
const BATCHES: [&'static [Said]; 5] = [
    // Two records are counted for 1, and one has come.
    &[Said::Seal(1, 2), Said::Record(0)],
    // No seal for 2 has come.
    &[Said::Record(2)],
    // Both are whole now.
    &[Said::Record(1), Said::Record(2), Said::Seal(2, 1)],
    // A repeat sets nothing off, and what is new in a whole partition goes at once.
    &[Said::Record(0)],
    &[Said::Record(3), Said::Record(1)],
];

/// What the first instance of a topology, which has one feed, sets off and holds after each of five batches:
/// of the pairs (1, 10), (1, 11), (2, 20) and (1, 12), and of seals of the keys 1 and 2.
pub(crate) fn heard_shown(alloc: Global, name: &str, files: &mut MemFiles) -> Result<Vec<u8>> {
    let valid = valid_of(alloc, name, files)?;
    let mut pool = Pool::new(alloc);
    pairs_heard(alloc, &valid, &mut pool)
}

// The same of a topology, over a pool without records.
fn pairs_heard(alloc: Global, valid: &Valid, pool: &mut Pool) -> Result<Vec<u8>> {
    let ids = placed_pairs(alloc, pool, &PAIRS)?;
    let mut shown = Text::new(alloc);
    batches_shown(alloc, valid, pool, ids.as_slice(), &mut shown)?;
    shown.into_bytes()
}

// Places pairs, and gives their ids.
fn placed_pairs(alloc: Global, pool: &mut Pool, pairs: &[(i64, i64)]) -> Result<Vec<Id>> {
    let mut ids = Vec::new(alloc);
    for (first, second) in pairs {
        let row = pair(alloc, Value::Int(*first), *second)?;
        ids.push(pool.place(row)?)?;
    }
    Ok(ids)
}

// The same of a pool with the pairs, by their ids.
fn batches_shown(
    alloc: Global,
    valid: &Valid,
    pool: &Pool,
    ids: &[Id],
    shown: &mut Text,
) -> Result<()> {
    let mut inbox = inbox_of(alloc, valid)?;
    all_shown(alloc, &mut inbox, pool, ids, &BATCHES, shown)
}

// Adds what some batches set off.
fn all_shown(
    alloc: Global,
    inbox: &mut Inbox,
    pool: &Pool,
    ids: &[Id],
    batches: &[&[Said]],
    shown: &mut Text,
) -> Result<()>
    requires feeds { feeds_in inbox.old ≡ 1 }
    requires kept { IsFrom pool.now inbox.old }
{
    for said in batches {
        hear_shown(alloc, inbox, pool, ids, *said, shown)?;
    }
    Ok(())
}

// The inbox of the first instance of a topology, which has one feed.
fn inbox_of(alloc: Global, valid: &Valid) -> Result<Inbox>
    ensures feeds { IfOk result (λ inbox. feeds_in inbox ≡ 1) }
    ensures kept { IfOk result (λ inbox. (records : List Row) → IsFrom records inbox) }
{
    ensure!(valid.component_count() > 0, "there is a component");
    ensure!(valid.replicas(0) > 0, "it has an instance");
    ensure!(!matches!(valid.mode(0), Mode::Order), "it hears messages");
    let inbox = Inbox::new(alloc, valid, 0, 0)?;
    ensure!(inbox.feed_count() == 1, "it has one feed");
    Ok(inbox)
}

// The messages of a batch, on the first feed.
fn batch_of(
    alloc: Global,
    inbox: &Inbox,
    pool: &Pool,
    ids: &[Id],
    said: &[Said],
) -> Result<Vec<(u32, Message)>>
    requires { feeds_in inbox.now ≡ 1 }
    ensures feeds { IfOk result (λ batch. All (λ pair. pair.0 < feeds_in inbox.now) batch.items) }
    ensures given { IfOk result (λ batch. All (λ pair. IsGiven pool.now pair.1) batch.items) }
{
    let mut batch = Vec::new(alloc);
    for one in said {
        let message = message_of(alloc, pool, ids, *one)?;
        batch.push((0, message))?;
    }
    Ok(batch)
}

// The message of what is said.
fn message_of(alloc: Global, pool: &Pool, ids: &[Id], said: Said) -> Result<Message>
    ensures { IfOk result (IsGiven pool.now) }
{
    match said {
        Said::Record(place) => record_of(pool, ids.get(place)),
        Said::Seal(key, count) => {
            let key = Record::from_values(vec![in alloc; Value::Int(key)]?);
            Ok(Message::Seal { key, count })
        }
    }
}

// The message of a record, where the pool gave its id.
fn record_of(pool: &Pool, id: Option<&Id>) -> Result<Message>
    ensures { IfOk result (IsGiven pool.now) }
{
    let Some(id) = id else {
        bail!("there is no such pair");
    };
    ensure!((id.number() as usize) < pool.len(), "the pool gave the id");
    Ok(Message::Row(*id))
}

// Adds what a batch sets off, and how many records wait after it.
fn hear_shown(
    alloc: Global,
    inbox: &mut Inbox,
    pool: &Pool,
    ids: &[Id],
    said: &[Said],
    shown: &mut Text,
) -> Result<()>
    requires feeds { feeds_in inbox.old ≡ 1 }
    requires kept { IsFrom pool.now inbox.old }
    ensures feeds { OnOk result (feeds_in inbox.new ≡ 1) }
    ensures kept { OnOk result (IsFrom pool.now inbox.new) }
{
    let batch = batch_of(alloc, inbox, pool, ids, said)?;
    let set_off = inbox.hear(pool, batch)?;
    set_off_shown(&set_off, shown);
    shown.add_text(format!(in alloc; "holds {}\n", inbox.held()));
    Ok(())
}

// Adds a line for each timestep, and one with the keys of the partitions that became whole.
fn set_off_shown(set_off: &Timesteps, shown: &mut Text) {
    for step in set_off.steps.as_slice() {
        shown.add_sets("sets off", step.sets());
    }
    shown.add_line("completes", set_off.whole.as_slice());
}
