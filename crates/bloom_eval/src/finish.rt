//! What the collections hold at the end of a step.
ghost use Rattle.std.specs.Prelude.{◌≡◌, ◌++◌, length, OnOk, IfOk};
ghost use Rattle.bloom_forms.specs.declared.module.Kind.TheVariants.{Output, Table};
ghost use Rattle.bloom_forms.specs.Step.{sets_of_kind};
ghost use Rattle.bloom_eval.specs.Code.Held.{rows_in, sets_in};
ghost use Rattle.bloom_eval.specs.Finish.{placed};

use crate::rows::{Rows, take_rows};
use crate::sets::{Kept, Outs};
use bloom_forms::{Collection, Kind};
use blz_set::RecordSet;
use std::alloc::{AllocError, Global};

// Places the set of a collection with the tables or the outputs, where it is one of these.
fn place_set(
    kind: Kind,
    rows: Rows<'_>,
    tables: &mut Vec<RecordSet>,
    outs: &mut Vec<RecordSet>,
) -> Result<(), AllocError>
    ensures tables { OnOk result (tables.new.items ≡ tables.old.items ++ placed Table kind (rows_in rows.entry)) }
    ensures outs { OnOk result (outs.new.items ≡ outs.old.items ++ placed Output kind (rows_in rows.entry)) }
{
    match kind {
        Kind::Table => tables.push(rows.into_set()?)?,
        Kind::Output => outs.push(rows.into_set()?)?,
        Kind::Input | Kind::Scratch => {}
    }
    Ok(())
}

/// The tables and the outputs, of what the collections hold.
pub(crate) fn finish(
    alloc: Global,
    collections: &[Collection],
    mut held: Vec<Rows<'_>>,
) -> Result<(Kept, Outs), AllocError>
    requires { length held.items ≡ length collections.now }
    ensures tables { IfOk result (λ made. made.0 ≡ sets_of_kind Table collections.now (sets_in held.entry.items)) }
    ensures outs { IfOk result (λ made. made.1 ≡ sets_of_kind Output collections.now (sets_in held.entry.items)) }
{
    let mut tables = Vec::new(alloc);
    let mut outs = Vec::new(alloc);
    for (i, collection) in collections.iter().enumerate() {
        let rows = take_rows(alloc, &mut held, i);
        place_set(collection.kind, rows, &mut tables, &mut outs)?;
    }
    Ok((Kept::from_sets(tables), Outs::from_sets(outs)))
}
