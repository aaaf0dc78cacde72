//! Projections that keep all columns of each row, in whatever order: no two rows of one width become
//! one, so that none is to be counted.
ghost use Rattle.std.specs.Prelude.{◌≡◌, ◌&&◌, List, OnOk};
ghost use Rattle.std.specs.List.{list_all};
ghost use Rattle.blz_value.specs.Operators.{project_rows};
ghost use Rattle.blz_value.specs.Record.{Row};
ghost use Rattle.blz_value.specs.Sets.{set_of};
ghost use Rattle.bloom_growth.specs.Bags.{IsBag};
ghost use Rattle.bloom_growth.specs.Turned.{TurnsInto};
ghost use Rattle.bloom_growth.specs.Whole.{has_column, keeps_all, counted_rows, WholeTurn, ProjectTurn};

use crate::bag::Bag;
use crate::turn::{Turn, Turning};
use blz_set::{RecordSet, SetFault};
use blz_value::Record;
use std::alloc::Global;

// Whether a column is among others.
fn has_column(columns: &[u32], column: usize) -> bool
    ensures { result ≡ has_column columns.now column }
{
    columns.iter().any(|other| *other as usize == column)
}

// Whether columns are all that a row has.
fn keeps_all(columns: &[u32], row: &Record) -> bool
    ensures { result ≡ keeps_all columns.now row.now }
{
    (0..row.values().len()).all(|column| has_column(columns, column))
}

// Whether columns are all that each row of a set has.
fn all_keep(columns: &[u32], rows: &RecordSet) -> bool
    ensures { result ≡ list_all (keeps_all columns.now) rows.now }
{
    rows.rows().iter().all(|row| keeps_all(columns, row))
}

// Whether columns are all that those rows have which a part gets and loses.
fn is_whole(columns: &[u32], part: Turning<'_>) -> bool
    ensures { result ≡ (list_all (keeps_all columns.now) part.entry.more.now && list_all (keeps_all columns.now) part.entry.gone.now) }
{
    all_keep(columns, part.more) && all_keep(columns, part.gone)
}

// What some columns of a part's rows become where the part changes, and they are all that those rows
// have which it gets and loses.
fn turn_whole(columns: &[u32], part: Turning<'_>) -> Result<Turn, SetFault>
    ensures { (old new : List Row) → WholeTurn columns.now old new part.entry.more.now part.entry.gone.now → TurnsInto (set_of (project_rows columns.now old)) (set_of (project_rows columns.now new)) result }
{
    let more = part.more.project(columns)?;
    let gone = part.gone.project(columns)?;
    Ok(Turn { more, gone })
}

/// What some columns of a part's rows become where the part changes, of a bag that has these columns of
/// the rows that have others too. After a fault it may have others.
pub fn turn_projected(
    alloc: Global,
    part: Turning<'_>,
    columns: &[u32],
    bag: &mut Bag,
) -> Result<Turn, SetFault>
    ensures bag { OnOk result ((old new : List Row) → ProjectTurn columns.now old new part.entry.more.now part.entry.gone.now bag.old → IsBag (counted_rows columns.now new) bag.new) }
    ensures rows { (old new : List Row) → ProjectTurn columns.now old new part.entry.more.now part.entry.gone.now bag.old → TurnsInto (set_of (project_rows columns.now old)) (set_of (project_rows columns.now new)) result }
{
    if is_whole(columns, part) {
        return turn_whole(columns, part);
    }
    bag.turn_columns(alloc, part, columns)
}
