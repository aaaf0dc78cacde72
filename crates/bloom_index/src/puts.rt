//! What a step puts out: of each output the rows that it has, or the id of the record that arrived.
ghost use Rattle.std.specs.Prelude.{◌≡◌, ◌<◌, ◌∷◌, ◌++◌, [], length, slice_set, All, IsTrue, IfOk, OnOk};
ghost use Rattle.blz_pool.specs.Entries.{row_with_id};
ghost use Rattle.bloom_forms.specs.declared.module.Kind.TheVariants.{Output};
ghost use Rattle.bloom_forms.specs.Step.{set_at, sets_of_kind};
ghost use Rattle.bloom_eval.specs.Finish.{placed};
ghost use Rattle.bloom_eval.specs.Puts.{put_rows, puts_in, IsPutOf, ArePutOf};
ghost use Rattle.bloom_parts.specs.Turns.{rows_in};
ghost use Rattle.bloom_index.specs.Code.StepSets.{held_sets};

use bloom_eval::{Put, Puts};
use bloom_forms::{Collection, Kind};
use bloom_parts::{Change, Rows};
use blz_pool::{Id, Pool};
use blz_set::RecordSet;
use std::alloc::{AllocError, Global};
use std::mem;

// Takes what a collection has, and leaves nothing in its place.
fn take_rows<'r>(alloc: Global, held: &mut Vec<Change<'r, 'r>>, number: usize) -> Rows<'r, 'r>
    requires { number < length held.old.items }
    ensures taken { rows_in result ≡ set_at (held_sets held.old.items) number }
    ensures left { held_sets held.new.items ≡ slice_set (held_sets held.old.items) number [] }
{
    let change = mem::replace(
        &mut held[number],
        Change::of_set(alloc, RecordSet::new(alloc)),
    );
    change.rows
}

// Whether these are the one record that arrived.
fn is_arrived(rows: &Rows<'_, '_>, pool: &Pool, id: &Id) -> bool
    requires { id.now < length pool.now }
    ensures { IsTrue result → rows_in rows.now ≡ row_with_id pool.now id.now ∷ [] }
{
    match rows.as_rows() {
        [row] => row == pool.get(*id),
        _ => false,
    }
}

// What an output with these rows puts out: where they are one record that arrived alone, its id.
fn put_of(
    alloc: Global,
    rows: Rows<'_, '_>,
    pool: &Pool,
    entries: &[(u32, Id)],
) -> Result<Put, AllocError>
    requires { All (λ entry. entry.1 < length pool.now) entries.now }
    ensures rows { IfOk result (λ put. put_rows pool.now put ≡ rows_in rows.entry) }
    ensures id { IfOk result (IsPutOf entries.now) }
{
    if let [entry] = entries {
        if is_arrived(&rows, pool, &entry.1) {
            return Ok(Put::Arrived(entry.1));
        }
    }
    Ok(Put::Rows(rows.into_set(alloc)?))
}

/// Makes `puts` what the outputs have, by its id a record that arrived alone.
pub(crate) fn put_out<'r>(
    alloc: Global,
    collections: &[Collection],
    mut held: Vec<Change<'r, 'r>>,
    pool: &Pool,
    entries: &[(u32, Id)],
    puts: &mut Puts,
) -> Result<(), AllocError>
    requires many { length held.items ≡ length collections.now }
    requires given { All (λ entry. entry.1 < length pool.now) entries.now }
    ensures rows { OnOk result (puts_in pool.now puts.new ≡ sets_of_kind Output collections.now (held_sets held.entry.items)) }
    ensures ids { OnOk result (ArePutOf entries.now puts.new) }
{
    puts.clear();
    for (i, collection) in collections.iter().enumerate() {
        if collection.kind == Kind::Output {
            let rows = take_rows(alloc, &mut held, i);
            puts.push(put_of(alloc, rows, pool, entries)?)?;
        }
    }
    Ok(())
}
