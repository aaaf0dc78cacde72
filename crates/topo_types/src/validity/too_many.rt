//! The kind TooMany: counts against their limits.
ghost use Rattle.std.specs.Prelude.{◌≡◌, ◌≢◌, ◌≤◌, ◌+◌, [], length, nat_le, IfOk, IfNone, IsTrue, false};
ghost use Rattle.std.specs.Option.{MatchOption};
ghost use Rattle.blz_value.specs.FirstPlace.{first_place};
ghost use Rattle.topo_forms.specs.Attributes as attributes;
ghost use Rattle.topo_forms.specs.Sites.{attributes_in};
ghost use Rattle.topo_forms.specs.ViewOf as views;
ghost use Rattle.topo_forms.specs.Validity.TooMany as spec;
ghost use Rattle.topo_types.specs.Code.Built.{site_seen, sites_seen};

use crate::view::sites::Site;
use blz_value::Str;
use fd_closure::{AttrNames, NamesFault};
use std::alloc::AllocError;
use topo_forms::{ComponentEntry, FdEntry, Side, SourceEntry, StreamEntry};

/// Most sources, and most sources and streams together.
const MOST_STREAMS: usize = 64;

/// Most components.
pub(crate) const MOST_COMPONENTS: usize = 32;

/// Most replicas of a component.
const MOST_REPLICAS: i64 = 8;

/// Most replicas of all components together.
const MOST_INSTANCES: usize = 64;

/// Most ports of a component, and most outputs.
const MOST_SIDES: usize = 8;

/// Most columns of a source, a port or an output.
const MOST_COLUMNS: usize = 8;

/// Most dependencies.
const MOST_FDS: usize = 64;

/// Whether there are more than eight columns.
pub(crate) fn is_wide(columns: &[Str]) -> bool
    ensures { result ≡ spec.is_wide columns.now }
{
    columns.len() > MOST_COLUMNS
}

/// Whether one of the ports, or outputs, has more than eight columns.
pub(crate) fn has_wide(sides: &[Side]) -> bool
    ensures { result ≡ spec.has_wide sides.now }
{
    sides.iter().any(|side| is_wide(side.columns.as_slice()))
}

/// Whether there are more than eight ports, or outputs.
pub(crate) fn are_many(sides: &[Side]) -> bool
    ensures { result ≡ spec.are_many sides.now }
{
    sides.len() > MOST_SIDES
}

/// Adds the columns in turn, and answers whether all had room.
pub(crate) fn add_columns(names: &mut AttrNames, columns: &[Str]) -> Result<bool, AllocError>
    requires { length names.old ≤ 64 }
    ensures fit { IfOk result (λ fit. fit ≡ nat_le (length (attributes.with_columns names.old columns.now)) 64) }
    ensures added { IfOk result (λ fit. IsTrue fit → names.new ≡ attributes.with_columns names.old columns.now) }
{
    for column in columns {
        match names.add(column) {
            Ok(_) => {}
            Err(NamesFault::Full) => return Ok(false),
            Err(NamesFault::NoMemory) => return Err(AllocError),
        }
    }
    Ok(true)
}

/// Adds the columns of the ports in turn, and answers whether all had room.
pub(crate) fn add_ports(names: &mut AttrNames, ports: &[Side]) -> Result<bool, AllocError>
    requires { length names.old ≤ 64 }
    ensures fit { IfOk result (λ fit. fit ≡ nat_le (length (attributes.with_columns names.old (attributes.side_columns ports.now))) 64) }
    ensures added { IfOk result (λ fit. IsTrue fit → names.new ≡ attributes.with_columns names.old (attributes.side_columns ports.now)) }
{
    for port in ports {
        if !add_columns(names, port.columns.as_slice())? {
            return Ok(false);
        }
    }
    Ok(true)
}

/// Whether the source goes past a limit; its columns are added to the attributes of those before it.
pub(crate) fn is_large_source(
    names: &mut AttrNames,
    number: usize,
    source: &SourceEntry,
) -> Result<bool, AllocError>
    requires { length names.old ≤ 64 }
    ensures large { IfOk result (λ large. large ≡ spec.too_many_source names.old number source.now) }
    ensures added { IfOk result (λ large. large ≡ false → names.new ≡ attributes.with_columns names.old source.now.columns) }
{
    let columns = source.columns.as_slice();
    if number == MOST_STREAMS || is_wide(columns) {
        return Ok(true);
    }
    Ok(!add_columns(names, columns)?)
}

// One to eight replicas.
fn is_replica_count(replicas: i64) -> bool
    ensures value { result ≡ spec.is_replica_count replicas }
    ensures few { IsTrue result → views.count_from replicas ≤ 8 }
{
    1 <= replicas && replicas <= MOST_REPLICAS
}

// A number that isn't negative, and 0 in place of one that is.
fn count_from(replicas: i64) -> usize
    ensures { result ≡ views.count_from replicas }
{
    if replicas < 0 { 0 } else { replicas as usize }
}

// How many replicas the component has, and 0 where their number is negative.
fn replicas_of(entry: &ComponentEntry) -> usize
    ensures { result ≡ views.count_from entry.now.replicas }
{
    count_from(entry.replicas)
}

// Whether the component with this number goes past a limit, where those before it have so many
// replicas; its columns are added to the attributes of those before it.
fn is_large_component(
    names: &mut AttrNames,
    number: usize,
    replicas: usize,
    site: &Site<'_>,
) -> Result<bool, AllocError>
    requires few { length names.old ≤ 64 }
    requires room { replicas ≤ 64 }
    ensures large { IfOk result (λ large. large ≡ spec.too_many_component names.old replicas number (site_seen site.now)) }
    ensures added { IfOk result (λ large. large ≡ false → names.new ≡ attributes.with_columns names.old (attributes.side_columns site.now.ports)) }
    ensures other { IfOk result (λ large. large ≡ false → number ≢ 32) }
    ensures names { IfOk result (λ large. large ≡ false → length names.new ≤ 64) }
    ensures room { IfOk result (λ large. large ≡ false → replicas + views.count_from site.now.entry.now.replicas ≤ 64) }
{
    let ports = site.ports.as_slice();
    let outputs = site.outputs.as_slice();
    let count = site.entry.replicas;
    if has_wide(ports) || has_wide(outputs) || number == MOST_COMPONENTS {
        return Ok(true);
    }
    if !is_replica_count(count) || are_many(ports) || are_many(outputs) {
        return Ok(true);
    }
    if replicas + count_from(count) > MOST_INSTANCES {
        return Ok(true);
    }
    Ok(!add_ports(names, ports)?)
}

/// The first source that goes past a limit. Until there the attributes of the sources are added.
pub(crate) fn first_large_source(
    names: &mut AttrNames,
    sources: &[SourceEntry],
) -> Result<Option<usize>, AllocError>
    requires { names.old ≡ [] }
    ensures place { IfOk result (λ place. place ≡ first_place (spec.large_source sources.now) 0 sources.now) }
    ensures few { IfOk result (λ place. MatchOption place (length sources.now ≤ 64) (λ i. i ≤ 64)) }
    ensures added { IfOk result (λ place. IfNone place (names.new ≡ attributes_in sources.now [])) }
    ensures room { IfOk result (λ place. IfNone place (length names.new ≤ 64)) }
{
    for (number, source) in sources.iter().enumerate() {
        if is_large_source(names, number, source)? {
            return Ok(Some(number));
        }
    }
    Ok(None)
}

/// The first component that goes past a limit. Until there the attributes of the ports are added to
/// those of the sources.
pub(crate) fn first_large_component(
    names: &mut AttrNames,
    sources: &[SourceEntry],
    sites: &[Site<'_>],
) -> Result<Option<usize>, AllocError>
    requires names { names.old ≡ attributes_in sources.now [] }
    requires few { length names.old ≤ 64 }
    ensures place { IfOk result (λ place. place ≡ first_place (spec.large_component sources.now (sites_seen sites.now)) 0 (sites_seen sites.now)) }
    ensures few { IfOk result (λ place. MatchOption place (length sites.now ≤ 32) (λ i. i ≤ 32)) }
    ensures added { IfOk result (λ place. IfNone place (names.new ≡ attributes_in sources.now (sites_seen sites.now))) }
{
    let mut replicas = 0;
    for (number, site) in sites.iter().enumerate() {
        if is_large_component(names, number, replicas, site)? {
            return Ok(Some(number));
        }
        replicas += replicas_of(site.entry);
    }
    Ok(None)
}

/// The first stream with which sources and streams pass their limit.
pub(crate) fn first_large_stream(sources: usize, streams: &[StreamEntry]) -> Option<usize>
    requires { sources ≤ 64 }
    ensures place { result ≡ first_place (λ i s. spec.too_many_stream sources i) 0 streams.now }
    ensures few { MatchOption result (sources + length streams.now ≤ 64) (λ i. i ≤ 64) }
{
    for (number, _) in streams.iter().enumerate() {
        if sources + number + 1 > MOST_STREAMS {
            return Some(number);
        }
    }
    None
}

/// The 65th dependency.
pub(crate) fn first_large_fd(fds: &[FdEntry]) -> Option<usize>
    ensures place { result ≡ first_place (λ i fd. spec.too_many_fd i) 0 fds.now }
    ensures few { MatchOption result (length fds.now ≤ 64) (λ i. i ≤ 64) }
{
    for (number, _) in fds.iter().enumerate() {
        if number == MOST_FDS {
            return Some(number);
        }
    }
    None
}
