//! The distinct records of a list.
ghost use Rattle.std.specs.Prelude.{◌≡◌, IfOk, map};
ghost use Rattle.topo_forms.specs.Messages.{distinct_rows};
ghost use Rattle.data_read.specs.Making.{distinct_lists};

use blz_value::{HashKey, Record};
use indexmap::IndexSet;
use std::alloc::{AllocError, Global};
use topo_forms::SourceLists;

// The distinct records of a list, each where it first stands. Strangers may have written the file, so
// they are hashed under a key that comes from all of them.
fn known_rows(alloc: Global, rows: Vec<Record>) -> Result<IndexSet<Record, HashKey>, AllocError>
    ensures { IfOk result (λ known. known.keys ≡ distinct_rows rows.items) }
{
    let key = HashKey::new().with(&rows);
    let mut known = IndexSet::with_capacity_and_hasher(alloc, rows.len(), key)?;
    for row in rows {
        known.insert(row)?;
    }
    Ok(known)
}

/// The distinct records of a list, in the order in which they first stand there. Takes a look-up by hash
/// for each.
fn distinct_rows(alloc: Global, rows: Vec<Record>) -> Result<Vec<Record>, AllocError>
    ensures { IfOk result (λ distinct. distinct.items ≡ distinct_rows rows.items) }
{
    let known = known_rows(alloc, rows)?;
    let mut distinct = Vec::with_capacity(alloc, known.len())?;
    for row in known {
        distinct.push(row)?;
    }
    Ok(distinct)
}

fn distinct_lists(alloc: Global, lists: SourceLists) -> Result<SourceLists, AllocError>
    ensures { IfOk result (λ distinct. distinct ≡ distinct_lists lists) }
{
    Ok(SourceLists {
        rows: distinct_rows(alloc, lists.rows)?,
        parts: distinct_rows(alloc, lists.parts)?,
    })
}

/// Of each source its distinct records and parts.
pub(crate) fn all_distinct(
    alloc: Global,
    sources: Vec<SourceLists>,
) -> Result<Vec<SourceLists>, AllocError>
    ensures { IfOk result (λ distinct. distinct.items ≡ map distinct_lists sources.items) }
{
    let mut distinct = Vec::new(alloc);
    for lists in sources {
        distinct.push(distinct_lists(alloc, lists)?)?;
    }
    Ok(distinct)
}
