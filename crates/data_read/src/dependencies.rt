//! Whether the records of all sources hold the dependencies.
ghost use Rattle.std.specs.Prelude.{◌≡◌, ◌++◌, ◌<◌, ◌≤◌, [], IfOk, OnOk, length, map, option_map};
ghost use Rattle.std.specs.List.{flat_map};
ghost use Rattle.blz_value.specs.Test.{cell};
ghost use Rattle.data_read.specs.Broken as spec;
ghost use Rattle.data_read.specs.Code.Earliest.{IsRowAt, if_known, number_of, one_place, placed_sides, sides_view, values_of, with_side};
ghost use Rattle.topo_forms.specs.Data as held;
ghost use Rattle.topo_forms.specs.View as view;

mod apart;
pub(crate) mod columns;
mod sides;

use crate::dependencies::apart::{holds_apart, none_known};
use crate::dependencies::columns::{attributes_of, columns_of, places_of};
use crate::dependencies::sides::{Side, SideSet};
use blz_value::{Attrs, Fd, HashKey, Record};
use indexmap::IndexSet;
use std::alloc::{AllocError, Global};
use topo_forms::{SourceLists, Valid, hash_key};

/// The records of a source that has all columns of a dependency, and the places of the columns of its two
/// sides.
#[derive(Drop)]
pub(crate) struct Placed<'a> {
    pub(crate) from: Vec<usize>,
    pub(crate) to: Vec<usize>,
    pub(crate) rows: &'a [Record],
}

/// A record, and the places of its values on the two sides of a dependency.
#[derive(Drop)]
pub(crate) struct Sided<'a> {
    pub(crate) row: &'a Record,
    pub(crate) from: &'a [usize],
    pub(crate) to: &'a [usize],
}

// Appends a source that has all columns of the dependency.
fn push_placed<'a>(
    alloc: Global,
    valid: &Valid,
    fd: Fd,
    source: u32,
    lists: &'a SourceLists,
    all: &mut Vec<Placed<'a>>,
) -> Result<(), AllocError>
    requires { source < length valid.now.view.streams }
    ensures { OnOk result (flat_map placed_sides all.new.items ≡ flat_map placed_sides all.old.items ++ spec.sides_in valid.now.view fd (source, lists.now)) }
{
    let columns = columns_of(alloc, valid, source)?;
    if !has_both(fd, attributes_of(&columns)) {
        return Ok(());
    }
    let from = places_of(alloc, &columns, fd.from)?;
    let to = places_of(alloc, &columns, fd.to)?;
    all.push(Placed {
        from,
        to,
        rows: &lists.rows,
    })?;
    Ok(())
}

fn has_both(fd: Fd, columns: Attrs) -> bool
    ensures { result ≡ held.has_both fd columns.bits }
{
    fd.from.is_within(columns) && fd.to.is_within(columns)
}

/// The sources with records that a dependency speaks of, in file order.
pub(crate) fn all_placed<'a>(
    alloc: Global,
    valid: &Valid,
    fd: Fd,
    sources: &'a [SourceLists],
) -> Result<Vec<Placed<'a>>, AllocError>
    requires { length sources.now ≤ length valid.now.view.streams }
    ensures { IfOk result (λ all. flat_map placed_sides all.items ≡ spec.all_sides valid.now.view fd sources.now) }
{
    valid.known();
    let mut all = Vec::new(alloc);
    for (source, lists) in sources.iter().enumerate() {
        push_placed(alloc, valid, fd, source as u32, lists, &mut all)?;
    }
    Ok(all)
}

fn push_sides<'a>(source: &'a Placed<'a>, all: &mut Vec<Sided<'a>>) -> Result<(), AllocError>
    ensures { OnOk result (map sides_view all.new.items ≡ map sides_view all.old.items ++ placed_sides source.now) }
{
    for row in source.rows {
        all.push(Sided {
            row,
            from: &source.from,
            to: &source.to,
        })?;
    }
    Ok(())
}

/// The records that a dependency speaks of, in source and file order.
pub(crate) fn all_sides<'a>(
    alloc: Global,
    placed: &'a [Placed<'a>],
) -> Result<Vec<Sided<'a>>, AllocError>
    ensures { IfOk result (λ all. map sides_view all.items ≡ flat_map placed_sides placed.now) }
{
    let mut all = Vec::new(alloc);
    for source in placed {
        push_sides(source, &mut all)?;
    }
    Ok(all)
}

// The number of the first record that agrees on exactly one side, of the first that agrees on each: where
// both are the same record, all that agree on one side agree on the other too.
fn one_place(first: Option<usize>, second: Option<usize>) -> Option<usize>
    ensures { result ≡ one_place first second }
{
    match (first, second) {
        (Some(i), Some(j)) => if i == j { None } else { Some(i.min(j)) },
        (Some(i), None) => Some(i),
        (None, second) => second,
    }
}

fn if_known(number: usize, is_new: bool) -> Option<usize>
    ensures { result ≡ if_known number is_new }
{
    if is_new { None } else { Some(number) }
}

/// The number of the first side with the same values, where there is one; a side with values of its own
/// goes last.
#[tactic(auto, using(crate::proofs::SidesLemmas::is_number, crate::proofs::SidesLemmas::is_kept))]
pub(crate) fn number_of<'a>(
    sides: &mut SideSet<'a>,
    side: Side<'a>,
) -> Result<Option<usize>, AllocError>
    ensures number { IfOk result (λ number. number ≡ number_of sides.old.keys (values_of side.entry)) }
    ensures kept { IfOk result (λ number. sides.new.keys ≡ with_side number sides.old.keys side.entry) }
{
    let (number, is_new) = sides.insert_full(side)?;
    Ok(if_known(number, is_new))
}

/// A side of a record.
pub(crate) fn side_at<'a>(row: &'a Record, places: &'a [usize]) -> Side<'a>
    ensures values { values_of result ≡ map (cell row.now) places.now }
    ensures row { result.row.now ≡ row.now }
{
    Side { row, places }
}

/// No sides, with room for so many, which are hashed under a key.
pub(crate) fn room_for<'a>(
    alloc: Global,
    count: usize,
    key: HashKey,
) -> Result<SideSet<'a>, AllocError>
    ensures { IfOk result (λ sides. sides.keys ≡ []) }
{
    IndexSet::with_capacity_and_hasher(alloc, count, key)
}

// The record of the side with this number.
#[tactic(auto, using(crate::proofs::SidesLemmas::row_of_side))]
fn row_at<'a>(sides: &SideSet<'a>, number: usize) -> &'a Record
    requires { number < length sides.now.keys }
    ensures { IsRowAt sides.now.keys number result.now }
{
    sides.as_slice()[number].row
}

// The first record that disagrees with an earlier one, after the earliest such, found by two sets without
// sides. While none does, the first records with their values on one side are those with their values on
// the other, so that a record stands under the same number in both sets.
fn pair_by<'a>(
    sided: &[Sided<'a>],
    from: &mut SideSet<'a>,
    to: &mut SideSet<'a>,
) -> Result<Option<(&'a Record, &'a Record)>, AllocError>
    requires from { from.old.keys ≡ [] }
    requires to { to.old.keys ≡ [] }
    ensures { IfOk result (λ pair. option_map (λ p. (p.0.now, p.1.now)) pair ≡ spec.broken_pair [] (map sides_view sided.now)) }
{
    for one in sided {
        let first = number_of(from, side_at(one.row, one.from))?;
        let second = number_of(to, side_at(one.row, one.to))?;
        match one_place(first, second) {
            Some(earlier) => return Ok(Some((row_at(from, earlier), one.row))),
            None => {}
        }
    }
    Ok(None)
}

fn broken_pair<'a>(
    alloc: Global,
    sided: &[Sided<'a>],
    key: HashKey,
) -> Result<Option<(&'a Record, &'a Record)>, AllocError>
    ensures { IfOk result (λ pair. option_map (λ p. (p.0.now, p.1.now)) pair ≡ spec.broken_pair [] (map sides_view sided.now)) }
{
    let mut from: SideSet<'a> = room_for(alloc, sided.len(), key)?;
    let mut to: SideSet<'a> = room_for(alloc, sided.len(), key)?;
    pair_by(sided, &mut from, &mut to)
}

/// A dependency that is broken: two records agree on exactly one of its sides.
#[derive(Drop)]
pub(crate) struct BrokenFd {
    /// The number of the dependency, counted from 0.
    pub fd: u32,
    /// The earlier record.
    pub first: Record,
    /// The later record.
    pub second: Record,
}

fn broken_by(
    alloc: Global,
    valid: &Valid,
    number: u32,
    sources: &[SourceLists],
    key: HashKey,
) -> Result<Option<BrokenFd>, AllocError>
    requires sources { length sources.now ≤ length valid.now.view.streams }
    requires fd { number < length valid.now.view.fds }
    ensures { IfOk result (λ broken. broken ≡ spec.broken_by number (spec.broken_pair [] (spec.all_sides valid.now.view (view.fd_at valid.now.view number) sources.now))) }
{
    let placed = all_placed(alloc, valid, valid.fd(number), sources)?;
    let sided = all_sides(alloc, &placed)?;
    match broken_pair(alloc, &sided, key)? {
        Some((first, second)) => Ok(Some(BrokenFd {
            fd: number,
            first: first.copy()?,
            second: second.copy()?,
        })),
        None => Ok(None),
    }
}

/// The first dependency that is broken, with the first record that breaks it beside one before, and the
/// earliest record beside which it does. Each record is looked up by hash at most once for each attribute of the dependencies, and
/// twice for each dependency with a side whose attributes all repeat a value.
pub(crate) fn first_broken(
    alloc: Global,
    valid: &Valid,
    sources: &[SourceLists],
) -> Result<Option<BrokenFd>, AllocError>
    requires { length sources.now ≤ length valid.now.view.streams }
    ensures { IfOk result (λ broken. broken ≡ spec.first_broken valid.now.view sources.now) }
{
    let key = hash_key(sources);
    let mut known = none_known(key);
    for number in 0..valid.fd_count() {
        if holds_apart(alloc, valid, valid.fd(number), sources, &mut known)? {
            continue;
        }
        match broken_by(alloc, valid, number, sources, key)? {
            Some(broken) => return Ok(Some(broken)),
            None => {}
        }
    }
    Ok(None)
}
