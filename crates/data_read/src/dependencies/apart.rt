//! Attributes of which no two records have the same value. A dependency with such an attribute on
//! each side is not broken, whatever else stands there.
ghost use Rattle.std.specs.Prelude.{[], ◌≡◌, ◌≤◌, ◌<◌, None, IfOk, IsTrue, OnOk, length, map};
ghost use Rattle.data_read.specs.Broken.{all_sides, broken_pair};
ghost use Rattle.data_read.specs.Code.Apart as spec;
ghost use Rattle.data_read.specs.Code.Earliest.{sides_view};

use crate::dependencies::sides::SideSet;
use crate::dependencies::{Sided, all_placed, all_sides, number_of, room_for, side_at};
use blz_value::{Attrs, Fd, HashKey};
use std::alloc::{AllocError, Global};
use topo_forms::{SourceLists, Valid};

/// The attributes that were looked at, and those of them of which no two records have the same value,
/// found by tables that hash under a key.
#[derive(Clone, Copy)]
pub(crate) struct Known {
    key: HashKey,
    asked: Attrs,
    pub(crate) apart: Attrs,
}

/// No attribute was looked at.
pub(crate) fn none_known(key: HashKey) -> Known
    ensures { result.apart.bits ≡ 0 }
{
    Known {
        key,
        asked: Attrs::from_bits(0),
        apart: Attrs::from_bits(0),
    }
}

// Whether no two of some records have the same values on the first side, found by a set without sides. A
// repeat ends the search.
fn are_apart<'a>(sided: &[Sided<'a>], values: &mut SideSet<'a>) -> Result<bool, AllocError>
    requires { values.old.keys ≡ [] }
    ensures { IfOk result (λ apart. IsTrue apart → spec.NoneAgree (λ y. y.from) (map sides_view sided.now)) }
{
    for one in sided {
        let number = number_of(values, side_at(one.row, one.from))?;
        if number.is_some() {
            return Ok(false);
        }
    }
    Ok(true)
}

fn own_fd(attribute: u8) -> Fd
    ensures { result ≡ spec.own_fd attribute }
{
    let own = Attrs::of(attribute as usize);
    Fd { from: own, to: own }
}

// Whether no two records, of all sources with an attribute, have the same value of it.
fn is_apart(
    alloc: Global,
    valid: &Valid,
    attribute: u8,
    sources: &[SourceLists],
    key: HashKey,
) -> Result<bool, AllocError>
    requires { length sources.now ≤ length valid.now.view.streams }
    ensures { IfOk result (λ apart. IsTrue apart → spec.IsApart valid.now.view sources.now attribute) }
{
    let placed = all_placed(alloc, valid, own_fd(attribute), sources)?;
    let sided = all_sides(alloc, &placed)?;
    let mut values = room_for(alloc, sided.len(), key)?;
    are_apart(&sided, &mut values)
}

// The same, looked at only once.
fn is_known_apart(
    alloc: Global,
    valid: &Valid,
    attribute: u8,
    sources: &[SourceLists],
    known: &mut Known,
) -> Result<bool, AllocError>
    requires attribute { attribute < 64 }
    requires sources { length sources.now ≤ length valid.now.view.streams }
    requires known { spec.AllApart valid.now.view sources.now known.old.apart.bits }
    ensures apart { IfOk result (λ apart. IsTrue apart → spec.IsApart valid.now.view sources.now attribute) }
    ensures known { OnOk result (spec.AllApart valid.now.view sources.now known.new.apart.bits) }
{
    if known.asked.has(attribute) {
        return Ok(known.apart.has(attribute));
    }
    let own = Attrs::of(attribute as usize);
    known.asked = known.asked.union(own);
    let apart = is_apart(alloc, valid, attribute, sources, known.key)?;
    if apart {
        known.apart = known.apart.union(own);
    }
    Ok(apart)
}

// Whether one of some attributes is such.
fn has_apart(
    alloc: Global,
    valid: &Valid,
    side: Attrs,
    sources: &[SourceLists],
    known: &mut Known,
) -> Result<bool, AllocError>
    requires sources { length sources.now ≤ length valid.now.view.streams }
    requires known { spec.AllApart valid.now.view sources.now known.old.apart.bits }
    ensures apart { IfOk result (λ has. IsTrue has → spec.HasApart valid.now.view sources.now side.bits) }
    ensures known { OnOk result (spec.AllApart valid.now.view sources.now known.new.apart.bits) }
{
    for attribute in 0..64u8 {
        if side.has(attribute) && is_known_apart(alloc, valid, attribute, sources, known)? {
            return Ok(true);
        }
    }
    Ok(false)
}

/// Whether each side of a dependency has an attribute of which no two records have the same value. For
/// each attribute that wasn't looked at before, each record is looked up by hash, up to the first that
/// repeats a value.
#[tactic(auto, using(crate::proofs::ApartLemmas::holds_apart))]
pub(crate) fn holds_apart(
    alloc: Global,
    valid: &Valid,
    fd: Fd,
    sources: &[SourceLists],
    known: &mut Known,
) -> Result<bool, AllocError>
    requires sources { length sources.now ≤ length valid.now.view.streams }
    requires known { spec.AllApart valid.now.view sources.now known.old.apart.bits }
    ensures holds { IfOk result (λ holds. IsTrue holds → broken_pair [] (all_sides valid.now.view fd sources.now) ≡ None) }
    ensures known { OnOk result (spec.AllApart valid.now.view sources.now known.new.apart.bits) }
{
    Ok(
        has_apart(alloc, valid, fd.from, sources, known)?
            && has_apart(alloc, valid, fd.to, sources, known)?,
    )
}
