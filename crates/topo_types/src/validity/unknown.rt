//! The kind Unknown: names that name nothing.
ghost use Rattle.std.specs.Prelude.{◌≡◌};
ghost use Rattle.topo_forms.specs.Validity.Unknown as spec;
ghost use Rattle.topo_types.specs.Code.Built.{site_seen, sites_seen};

use crate::validity::spots::{output_of, port_of, side_of};
use crate::validity::twice::{has_name, names_within};
use crate::view::sites::Site;
use blz_value::Str;
use topo_forms::{Body, Declared, FdEntry, SourceEntry, Spot, Stock, StreamEntry};

fn misses_port(sites: &[Site<'_>], spots: &[Spot]) -> bool
    ensures { result ≡ spec.misses_port (sites_seen sites.now) spots.now }
{
    spots.iter().any(|spot| port_of(sites, spot).is_none())
}

fn is_unknown_note(site: &Site<'_>, note: &Declared) -> bool
    ensures { result ≡ spec.unknown_note (site_seen site.now) note.now }
{
    side_of(site.ports.as_slice(), &note.from).is_none()
        || side_of(site.outputs.as_slice(), &note.to).is_none()
}

fn misses_note(site: &Site<'_>, notes: &[Declared]) -> bool
    ensures { result ≡ spec.misses_note (site_seen site.now) notes.now }
{
    notes.iter().any(|note| is_unknown_note(site, note))
}

// Whether a gate has a name that is no attribute.
fn misses_attribute(attributes: &[Str], notes: &[Declared]) -> bool
    ensures { result ≡ spec.misses_attribute attributes.now notes.now }
{
    notes
        .iter()
        .any(|note| !names_within(note.gate.as_slice(), attributes))
}

fn is_unknown_in_stock(stock: &Stock) -> bool
    ensures { result ≡ spec.unknown_in_stock stock.now }
{
    match stock {
        Stock::Split { columns, split } => !has_name(columns.as_slice(), split),
        Stock::Latest { columns, keys } => !names_within(keys.as_slice(), columns.as_slice()),
        Stock::Number { .. } => false,
    }
}

fn is_unknown_in_body(body: &Body) -> bool
    ensures { result ≡ spec.unknown_in_body body.now }
{
    match body {
        Body::Module(_) | Body::None => false,
        Body::Stock(stock) => is_unknown_in_stock(stock),
    }
}

/// Whether the source has a name in `seal` that is no column, or goes to a port that isn't there.
pub(crate) fn is_unknown_source(sites: &[Site<'_>], source: &SourceEntry) -> bool
    ensures { result ≡ spec.unknown_source (sites_seen sites.now) source.now }
{
    !names_within(source.seal.as_slice(), source.columns.as_slice())
        || misses_port(sites, source.to.as_slice())
}

/// Whether the component has a split or a key that is no column, a name in its mode's key or in a
/// gate that is no attribute, or a note of a port or of an output that isn't there.
pub(crate) fn is_unknown_component(attributes: &[Str], site: &Site<'_>) -> bool
    ensures { result ≡ spec.unknown_component attributes.now (site_seen site.now) }
{
    let entry = site.entry;
    let notes = entry.notes.as_slice();
    is_unknown_in_body(&entry.body)
        || !names_within(entry.key.as_slice(), attributes)
        || misses_attribute(attributes, notes)
        || misses_note(site, notes)
}

/// Whether the stream goes to a port that isn't there, or comes from no output.
pub(crate) fn is_unknown_stream(sites: &[Site<'_>], stream: &StreamEntry) -> bool
    ensures { result ≡ spec.unknown_stream (sites_seen sites.now) stream.now }
{
    misses_port(sites, stream.to.as_slice()) || output_of(sites, &stream.from).is_none()
}

/// Whether the dependency has a name that is no attribute.
pub(crate) fn is_unknown_fd(attributes: &[Str], fd: &FdEntry) -> bool
    ensures { result ≡ spec.unknown_fd attributes.now fd.now }
{
    !names_within(fd.from.as_slice(), attributes) || !names_within(fd.to.as_slice(), attributes)
}
