//! Which streams uphold a dependency, and where it is usable.
ghost use Rattle.std.specs.Prelude.{◌≡◌, map, IfOk};
ghost use Rattle.std.specs.List.{enumerate_from};
ghost use Rattle.blz_value.specs.Arrows as reads;
ghost use Rattle.blz_value.specs.Closure.{within};
ghost use Rattle.topo_graph.specs.Code.Lines as spec;
ghost use Rattle.topo_forms.specs.Data.{has_both};

use crate::lines::Line;
use blz_value::{Fd, arrow, bit_if, closed, is_in, is_within, union_of};
use std::alloc::{AllocError, Global};

/// What is found of a dependency.
#[derive(Clone, Copy)]
pub(crate) struct Holding {
    /// The streams that uphold it.
    pub(crate) upheld: u64,
    /// The components at which it is usable.
    pub(crate) usable: u64,
}

// Whether a set has all columns of the dependency.
fn has_both_sides(fd: Fd, columns: u64) -> bool
    ensures { result ≡ has_both fd columns }
{
    let to = is_within(fd.to.bits, columns);
    is_within(fd.from.bits, columns) && to
}

fn upholds_alone(fd: Fd, line: &Line) -> bool
    ensures { result ≡ spec.alone_by fd line.now }
{
    !has_both_sides(fd, line.columns) || line.source
}

fn hands_on(fd: Fd, line: &Line) -> bool
    ensures { result ≡ spec.hands_by fd line.now }
{
    line.hands && is_within(fd.from.bits | fd.to.bits, line.own)
}

fn arrow_of(fd: Fd, stream: usize, line: &Line) -> Fd
    ensures { result ≡ spec.arrow_by fd (stream, line.now) }
{
    arrow(line.before, bit_if(hands_on(fd, line), stream))
}

fn starts_of(alloc: Global, lines: &[Line], fd: Fd) -> Result<Vec<u64>, AllocError>
    ensures { IfOk result (λ sets. sets.items ≡ map (spec.start_by fd) (enumerate_from 0 lines.now)) }
{
    lines
        .iter()
        .enumerate()
        .map(|(stream, line)| bit_if(upholds_alone(fd, line), stream))
        .collect(alloc)
}

fn arrows_of(alloc: Global, lines: &[Line], fd: Fd) -> Result<Vec<Fd>, AllocError>
    ensures { IfOk result (λ arrows. arrows.items ≡ map (spec.arrow_by fd) (enumerate_from 0 lines.now)) }
{
    lines
        .iter()
        .enumerate()
        .map(|(stream, line)| arrow_of(fd, stream, line))
        .collect(alloc)
}

// The streams that uphold a dependency.
fn upholders(alloc: Global, lines: &[Line], fd: Fd) -> Result<u64, AllocError>
    ensures { IfOk result (λ set. set ≡ spec.upholders_by lines.now fd) }
{
    let starts = starts_of(alloc, lines, fd)?;
    let arrows = arrows_of(alloc, lines, fd)?;
    Ok(closed(union_of(&starts), &arrows))
}

// Whether a stream upholds the dependency, and has all of `from` only with all of `to`.
fn is_good(fd: Fd, upheld: u64, stream: usize, line: &Line) -> bool
    ensures { result ≡ spec.is_good fd upheld (stream, line.now) }
{
    let ends = is_within(fd.to.bits, line.columns);
    is_in(stream, upheld) && (!is_within(fd.from.bits, line.columns) || ends)
}

// For each stream the set of it, which is empty where it isn't good.
fn good_sets(alloc: Global, lines: &[Line], fd: Fd, upheld: u64) -> Result<Vec<u64>, AllocError>
    ensures { IfOk result (λ sets. sets.items ≡ map (spec.good_by fd upheld) (enumerate_from 0 lines.now)) }
{
    lines
        .iter()
        .enumerate()
        .map(|(stream, line)| bit_if(is_good(fd, upheld, stream, line), stream))
        .collect(alloc)
}

fn good_set(alloc: Global, lines: &[Line], fd: Fd, upheld: u64) -> Result<u64, AllocError>
    ensures { IfOk result (λ set. set ≡ spec.good_set lines.now fd upheld) }
{
    let sets = good_sets(alloc, lines, fd, upheld)?;
    Ok(union_of(&sets))
}

// For each component the set of it, which is empty where a stream goes into it that isn't good.
fn usable_sets(alloc: Global, into: &[u64], good: u64) -> Result<Vec<u64>, AllocError>
    ensures { IfOk result (λ sets. sets.items ≡ map (λ place. reads.bit_if (within place.1 good) place.0) (enumerate_from 0 into.now)) }
{
    into.iter()
        .enumerate()
        .map(|(component, set)| bit_if(is_within(*set, good), component))
        .collect(alloc)
}

fn usable_by(alloc: Global, into: &[u64], good: u64) -> Result<u64, AllocError>
    ensures { IfOk result (λ set. set ≡ spec.usable_by into.now good) }
{
    let sets = usable_sets(alloc, into, good)?;
    Ok(union_of(&sets))
}

// What is found of a dependency.
fn holding_of(alloc: Global, lines: &[Line], into: &[u64], fd: Fd) -> Result<Holding, AllocError>
    ensures { IfOk result (λ held. held ≡ spec.holding_by lines.now into.now fd) }
{
    let upheld = upholders(alloc, lines, fd)?;
    let good = good_set(alloc, lines, fd, upheld)?;
    let usable = usable_by(alloc, into, good)?;
    Ok(Holding { upheld, usable })
}

/// What is found of each dependency.
pub(crate) fn all_holdings(
    alloc: Global,
    lines: &[Line],
    into: &[u64],
    fds: &[Fd],
) -> Result<Vec<Holding>, AllocError>
    ensures { IfOk result (λ held. held.items ≡ map (spec.holding_by lines.now into.now) fds.now) }
{
    let mut held = Vec::new(alloc);
    for fd in fds {
        held.push(holding_of(alloc, lines, into, *fd)?)?;
    }
    Ok(held)
}

/// The streams that uphold each.
pub(crate) fn all_upheld(alloc: Global, held: &[Holding]) -> Result<Vec<u64>, AllocError>
    ensures { IfOk result (λ sets. sets.items ≡ map (λ h. h.upheld) held.now) }
{
    held.iter().map(|one| one.upheld).collect(alloc)
}

/// The components at which each is usable.
pub(crate) fn all_usable(alloc: Global, held: &[Holding]) -> Result<Vec<u64>, AllocError>
    ensures { IfOk result (λ sets. sets.items ≡ map (λ h. h.usable) held.now) }
{
    held.iter().map(|one| one.usable).collect(alloc)
}
