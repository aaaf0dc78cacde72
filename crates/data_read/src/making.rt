//! Data made of lists of rows and parts.
ghost use Rattle.std.specs.Prelude.{◌≡◌, ◌≤◌, IfOk, length, map};
ghost use Rattle.std.specs.List.{zip};
ghost use Rattle.data_read.specs.Code.Pairs.{source_in};
ghost use Rattle.data_read.specs.Gives.{Gives};
ghost use Rattle.data_read.specs.Making.{data_from, sources_of, upheld};
ghost use Rattle.topo_forms.specs.Data.{IsData, Holds};
ghost use Rattle.topo_forms.specs.View.{source_count};

use crate::counting::counted;
use crate::dependencies::first_broken;
use crate::distinct::all_distinct;
use crate::fault::DataFault;
use blz_value::Record;
use std::alloc::{AllocError, Global};
use topo_forms::{Data, SourceLists, Valid};

// FdBroken for the first dependency that is broken.
fn upheld(alloc: Global, valid: &Valid, sources: &[SourceLists]) -> Result<(), DataFault>
    requires { length sources.now ≤ length valid.now.view.streams }
    ensures { Gives (λ _. tt) result (upheld valid.now.view sources.now) }
{
    match first_broken(alloc, valid, sources)? {
        Some(broken) => Err(DataFault::FdBroken {
            fd: broken.fd,
            first: broken.first,
            second: broken.second,
        }),
        None => Ok(()),
    }
}

#[tactic(auto, unfolding(crate::specs::Making::data_from), using(crate::proofs::MakingLemmas::few_lists, crate::proofs::MakingLemmas::few_distinct, crate::proofs::CountingLemmas::few_once, crate::proofs::CountingLemmas::apart_once))]
fn made_of(alloc: Global, valid: &Valid, sources: Vec<SourceLists>) -> Result<Data, DataFault>
    requires { IsData valid.now.view sources.items }
    ensures { Gives (λ d. d) result (data_from valid.now.view sources.items) }
{
    counted(valid, &sources)?;
    let distinct = all_distinct(alloc, sources)?;
    upheld(alloc, valid, &distinct)?;
    Ok(Data::new(distinct))
}

/// The data that lists of rows and parts make, which hold the dependencies.
pub(crate) fn data_from(
    alloc: Global,
    valid: &Valid,
    sources: Vec<SourceLists>,
) -> Result<Data, DataFault>
    requires { IsData valid.now.view sources.items }
    ensures making { Gives (λ d. d) result (data_from valid.now.view sources.items) }
    ensures fits { IfOk result (IsData valid.now.view) }
    ensures holds { IfOk result (Holds valid.now.view) }
{
    made_of(alloc, valid, sources)
}

fn side_by_side(
    alloc: Global,
    rows: Vec<Vec<Record>>,
    parts: Vec<Vec<Record>>,
) -> Result<Vec<SourceLists>, AllocError>
    ensures { IfOk result (λ sources. sources.items ≡ map source_in (zip rows.items parts.items)) }
{
    let mut others = parts.into_iter();
    let mut sources = Vec::new(alloc);
    for rows in rows {
        match others.next() {
            Some(parts) => sources.push(SourceLists { rows, parts })?,
            None => return Ok(sources),
        }
    }
    Ok(sources)
}

// The sources that lists of rows and of parts make.
#[tactic(auto, using(crate::proofs::ListsLemmas::sources_in))]
fn sources_of(
    alloc: Global,
    rows: Vec<Vec<Record>>,
    parts: Vec<Vec<Record>>,
) -> Result<Vec<SourceLists>, AllocError>
    ensures { IfOk result (λ sources. sources.items ≡ sources_of (map (λ r. r.items) rows.items) (map (λ p. p.items) parts.items)) }
{
    side_by_side(alloc, rows, parts)
}

/// The data of lists of rows and of parts, one of each for each source, in file order. Repeated records
/// and parts are held once.
///
/// TooMany comes where there are more than 65,536 rows and parts, repeats included, with the source at
/// which they pass this number. FdBroken comes else for the first dependency that is broken, with the
/// first record that breaks it beside one before, and the earliest of those.
pub fn of_lists(
    alloc: Global,
    valid: &Valid,
    rows: Vec<Vec<Record>>,
    parts: Vec<Vec<Record>>,
) -> Result<Data, DataFault>
    requires rows { length rows.items ≡ source_count valid.now.view }
    requires parts { length parts.items ≡ source_count valid.now.view }
    requires fit { IsData valid.now.view (sources_of (map (λ r. r.items) rows.items) (map (λ p. p.items) parts.items)) }
    ensures making { Gives (λ d. d) result (data_from valid.now.view (sources_of (map (λ r. r.items) rows.items) (map (λ p. p.items) parts.items))) }
    ensures fits { IfOk result (IsData valid.now.view) }
    ensures holds { IfOk result (Holds valid.now.view) }
{
    let sources = sources_of(alloc, rows, parts)?;
    data_from(alloc, valid, sources)
}
