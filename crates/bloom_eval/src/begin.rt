//! What the collections hold at the beginning of a step.
ghost use Rattle.std.specs.Prelude.{◌≡◌, ◌<◌, ◌^◌, length, Some, IfOk};
ghost use Rattle.bloom_forms.specs.declared.module.Kind.TheVariants.{Input, Table};
ghost use Rattle.bloom_forms.specs.Kinds.{of_kind};
ghost use Rattle.bloom_forms.specs.Step.{set_at, begun, at_start};
ghost use Rattle.bloom_eval.specs.Code.Held.{rows_in, sets_in};
ghost use Rattle.bloom_eval.specs.Begin.{left_by, place_after, AreLeft};

use crate::rows::Rows;
use crate::sets::Kept;
use bloom_forms::{Collection, Kind};
use blz_set::RecordSet;
use std::alloc::{AllocError, Global};

// What a collection holds, of the table and the port whose turn it is.
fn begin_set<'a>(
    alloc: Global,
    kind: Kind,
    kept: &mut Kept,
    now: &'a [RecordSet],
    table: usize,
    port: usize,
) -> Rows<'a>
    requires table { kind ≡ Table → table < length kept.old }
    requires port { kind ≡ Input → port < length now.now }
    ensures rows { rows_in result ≡ begun (Some kind) (set_at kept.old table) (set_at now.now port) }
    ensures left { kept.new ≡ left_by kind kept.old table }
{
    match kind {
        Kind::Input => Rows::Lent(&now[port]),
        Kind::Table => Rows::Own(kept.take(alloc, table)),
        Kind::Output | Kind::Scratch => Rows::Own(RecordSet::new(alloc)),
    }
}

// The place of the next collection of a kind, after one that stands before it or has it.
fn turn(kind: Kind, of: Kind, place: usize) -> usize
    requires { place < 2 ^ 63 }
    ensures { result ≡ place_after kind of place }
{
    if kind == of { place + 1 } else { place }
}

/// What the collections hold at the beginning of a step. The tables are taken out of what is kept,
/// and arrivals are lent.
pub(crate) fn begin<'a>(
    alloc: Global,
    collections: &[Collection],
    kept: &mut Kept,
    now: &'a [RecordSet],
) -> Result<Vec<Rows<'a>>, AllocError>
    requires tables { length kept.old ≡ length (of_kind Table collections.now) }
    requires ports { length now.now ≡ length (of_kind Input collections.now) }
    ensures begun { IfOk result (λ held. sets_in held.items ≡ at_start collections.now kept.old now.now) }
    ensures left { AreLeft kept.old kept.new }
{
    let mut held = Vec::new(alloc);
    let mut table = 0;
    let mut port = 0;
    for collection in collections {
        let kind = collection.kind;
        held.push(begin_set(alloc, kind, kept, now, table, port))?;
        table = turn(Kind::Table, kind, table);
        port = turn(Kind::Input, kind, port);
    }
    Ok(held)
}
