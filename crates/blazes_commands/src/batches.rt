//! The tweets that the built-in word count counts, batch by batch.
ghost use Rattle.std.specs.Prelude.{◌≡◌, ◌<◌, ◌++◌, [], ◌∷◌, IfOk, OnOk};
ghost use Rattle.data_read.specs.Gives as reading;
ghost use Rattle.data_read.specs.Making.{data_from};
ghost use Rattle.topo_forms.specs.Data.{IsData};
ghost use Rattle.command_checks.specs.Ran.{Gives};
ghost use Rattle.blazes_commands.specs.Soak as spec;

use blz_value::{Record, Str, Value};
use command_checks::{Stop, data_refusal, refused, stop_at};
use data_read::{DataFault, of_lists};
use report_lines::Refusal;
use std::alloc::{AllocError, Global};
use topo_forms::{Data, Valid};

// How many tweets a batch has.
const BATCH: u64 = 16;

// Two words with these numbers.
fn words(alloc: Global, first: u64, second: u64) -> Result<Str, AllocError>
    ensures { IfOk result (λ text. text ≡ spec.words first second) }
{
    let text = format!(in alloc; "w{first} w{second}")?;
    Str::from_text(alloc, text.as_str())
}

// The tweet at a place of a batch, both counted from 0.
fn tweet(alloc: Global, batch: u32, place: u64) -> Result<Record, AllocError>
    requires { place < 16 }
    ensures { IfOk result (λ row. row ≡ spec.tweet batch place) }
{
    let batch = u64::from(batch);
    let text = words(alloc, place % 4, (place + batch + 1) % 4)?;
    let mut values = Vec::new(alloc);
    values.push(Value::Int((BATCH * batch + place + 1) as i64))?;
    values.push(Value::Text(text))?;
    values.push(Value::Int((batch + 1) as i64))?;
    Ok(Record::from_values(values))
}

// Adds those of a batch.
#[tactic(auto, using(label_walk::proofs::Loops::below_steps))]
fn push_batch(alloc: Global, batch: u32, rows: &mut Vec<Record>) -> Result<(), AllocError>
    ensures { OnOk result (rows.new.items ≡ rows.old.items ++ spec.tweets_of batch) }
{
    for place in 0..BATCH {
        rows.push(tweet(alloc, batch, place)?)?;
    }
    Ok(())
}

// The tweets of so many batches.
#[tactic(auto, using(label_walk::proofs::Loops::below_steps))]
fn tweets(alloc: Global, batches: u32) -> Result<Vec<Record>, AllocError>
    ensures { IfOk result (λ rows. rows.items ≡ spec.tweets batches) }
{
    let mut rows = Vec::new(alloc);
    for batch in 0..batches {
        push_batch(alloc, batch, &mut rows)?;
    }
    Ok(rows)
}

// Whether a topology has one source, of three columns.
#[tactic(auto, using(report_lines::proofs::Streams::source_within))]
fn takes_tweets(valid: &Valid) -> bool
    ensures { result ≡ spec.takes_tweets valid.now.view }
{
    valid.source_count() == 1 && valid.stream_width(0) == 3
}

// These records as the only list.
fn alone(alloc: Global, records: Vec<Record>) -> Result<Vec<Vec<Record>>, AllocError>
    ensures { IfOk result (λ lists. lists.items ≡ records ∷ []) }
{
    let mut lists = Vec::new(alloc);
    lists.push(records)?;
    Ok(lists)
}

// The data of one source with these records and without declared partitions.
fn one_source(alloc: Global, valid: &Valid, rows: Vec<Record>) -> Result<Data, DataFault>
    requires { IsData valid.now.view (spec.one_source rows.items) }
    ensures making { reading.Gives (λ given. given) result (data_from valid.now.view (spec.one_source rows.items)) }
    ensures fits { IfOk result (IsData valid.now.view) }
{
    let lists = alone(alloc, rows)?;
    let parts = alone(alloc, Vec::new(alloc))?;
    of_lists(alloc, valid, lists, parts)
}

// The same, or the line of its fault.
fn data_of(alloc: Global, valid: &Valid, rows: Vec<Record>) -> Result<Data, Stop>
    requires { IsData valid.now.view (spec.one_source rows.items) }
    ensures gives { Gives (λ given. given) result (spec.data_of valid.now.view rows.items) }
    ensures fits { IfOk result (IsData valid.now.view) }
{
    match one_source(alloc, valid, rows) {
        Ok(given) => Ok(given),
        Err(fault) => Err(stop_at(alloc, data_refusal(alloc, valid, fault)?)),
    }
}

/// The data of so many batches, where the topology takes tweets: one source of three columns.
pub fn tweets_data(alloc: Global, valid: &Valid, batches: u32) -> Result<Data, Stop>
    ensures gives { Gives (λ given. given) result (spec.tweets_data valid.now.view batches) }
    ensures fits { IfOk result (IsData valid.now.view) }
{
    if !takes_tweets(valid) {
        let name = Str::from_text(alloc, "tweets")?;
        return Err(refused(alloc, &Refusal::DataForm { name, row: 0 }));
    }
    data_of(alloc, valid, tweets(alloc, batches)?)
}
