//! Regions by the components that feed each: of those that no other region without a number feeds,
//! each time the one with the first member.
ghost use Rattle.std.specs.Prelude.{◌≡◌, ◌&&◌, map, length, slice_index_or, IfOk};
ghost use Rattle.std.specs.List.{enumerate_from, list_any};
ghost use Rattle.blz_value.specs.Graph.{up, is_in};
ghost use Rattle.blz_value.specs.NumberSets.{below};
ghost use Rattle.blz_value.specs.Regions as spec;
ghost use Rattle.blz_value.specs.Arrows.{bit_if};
ghost use Rattle.blz_value.specs.Bits.{members};

use crate::attrs::Fd;
use crate::sets::{arrow, bit_if, bit_of, closed, is_in, is_within, set_at, union_of};
use std::alloc::{AllocError, Global};

// The arrows from each component to those that feed it.
fn arrows(alloc: Global, feeding: &[u64]) -> Result<Vec<Fd>, AllocError>
    ensures { IfOk result (λ arrows. arrows.items ≡ map spec.feeding_arrow (enumerate_from 0 feeding.now)) }
{
    feeding
        .iter()
        .enumerate()
        .map(|(component, set)| arrow(bit_of(component), *set))
        .collect(alloc)
}

// Those that reach each component.
fn reaching(alloc: Global, count: usize, arrows: &[Fd]) -> Result<Vec<u64>, AllocError>
    ensures { IfOk result (λ ups. ups.items ≡ map (up arrows.now) (below count)) }
{
    (0..count)
        .map(|component| closed(bit_of(component), arrows))
        .collect(alloc)
}

fn together(ups: &[u64], a: usize, b: usize) -> bool
    ensures { result ≡ spec.together_by ups.now a b }
{
    let back = is_in(a, set_at(ups, b));
    is_in(b, set_at(ups, a)) && back
}

// For each component the set of it, which is empty where it isn't together with this one.
fn member_sets(
    alloc: Global,
    ups: &[u64],
    count: usize,
    component: usize,
) -> Result<Vec<u64>, AllocError>
    ensures { IfOk result (λ sets. sets.items ≡ map (λ d. bit_if (spec.together_by ups.now component d) d) (below count)) }
{
    (0..count)
        .map(|other| bit_if(together(ups, component, other), other))
        .collect(alloc)
}

fn region(alloc: Global, ups: &[u64], count: usize, component: usize) -> Result<u64, AllocError>
    ensures { IfOk result (λ set. set ≡ spec.region_by ups.now count component) }
{
    let sets = member_sets(alloc, ups, count, component)?;
    Ok(union_of(&sets))
}

// The region of each component.
fn all_regions(alloc: Global, ups: &[u64]) -> Result<Vec<u64>, AllocError>
    ensures { IfOk result (λ sets. sets.items ≡ spec.all_regions ups.now) }
{
    let mut sets = Vec::new(alloc);
    for (component, _) in ups.iter().enumerate() {
        sets.push(region(alloc, ups, ups.len(), component)?)?;
    }
    Ok(sets)
}

// Whether a member of a region has a feeder outside that has no number.
fn is_blocked(feeding: &[u64], count: usize, set: u64, done: u64) -> bool
    ensures { result ≡ spec.is_blocked_by feeding.now count set done }
{
    let inside = done | set;
    (0..count).any(|c| is_in(c, set) && !is_within(set_at(feeding, c), inside))
}

fn is_next(feeding: &[u64], sets: &[u64], count: usize, done: u64, component: usize) -> bool
    ensures { result ≡ spec.is_next_by feeding.now sets.now count done component }
{
    let blocked = is_blocked(feeding, count, set_at(sets, component), done);
    !is_in(component, done) && !blocked
}

// The first component whose region may be next.
fn next(feeding: &[u64], sets: &[u64], count: usize, done: u64) -> Option<usize>
    ensures { result ≡ spec.next_by feeding.now sets.now count done }
{
    (0..count).find(|c| is_next(feeding, sets, count, done, *c))
}

// The regions in the order of their numbers.
fn walk(alloc: Global, feeding: &[u64], sets: &[u64], count: usize) -> Result<Vec<u64>, AllocError>
    ensures { IfOk result (λ regions. regions.items ≡ spec.regions_by feeding.now sets.now count count 0) }
{
    let mut regions = Vec::new(alloc);
    let mut done = 0;
    for _turn in 0..count {
        let Some(c) = next(feeding, sets, count, done) else {
            return Ok(regions);
        };
        let here = set_at(sets, c);
        regions.push(here)?;
        done |= here;
    }
    Ok(regions)
}

/// The region of each component, told those that feed each.
pub fn sets_of(alloc: Global, feeding: &[u64]) -> Result<Vec<u64>, AllocError>
    ensures { IfOk result (λ sets. sets.items ≡ spec.sets_by feeding.now) }
{
    let arrows = arrows(alloc, feeding)?;
    let ups = reaching(alloc, feeding.len(), &arrows)?;
    all_regions(alloc, &ups)
}

/// The regions in the order of their numbers, told the region of each component and those that feed
/// each.
pub fn regions_in(alloc: Global, feeding: &[u64], sets: &[u64]) -> Result<Vec<u64>, AllocError>
    ensures { IfOk result (λ regions. regions.items ≡ spec.regions_by feeding.now sets.now (length feeding.now) (length feeding.now) 0) }
{
    walk(alloc, feeding, sets, feeding.len())
}

// How many numbers are in a set.
fn member_count(set: u64) -> usize
    ensures { result ≡ length (members set) }
{
    (0..64).filter(|number| is_in(*number, set)).count()
}

// Whether a member of a region feeds itself.
fn feeds_itself(feeding: &[u64], count: usize, set: u64) -> bool
    ensures { result ≡ list_any (λ c. is_in c set && is_in c (slice_index_or feeding.now c 0)) (below count) }
{
    (0..count).any(|c| is_in(c, set) && is_in(c, set_at(feeding, c)))
}

/// Whether a region has two or more members, or a member that feeds itself.
pub fn is_cyclic(feeding: &[u64], count: usize, set: u64) -> bool
    ensures { result ≡ spec.is_cyclic_by feeding.now count set }
{
    member_count(set) > 1 || feeds_itself(feeding, count, set)
}
