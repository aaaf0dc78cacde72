//! The kind Columns: ports with other columns, and columns that a stock body would have twice.
ghost use Rattle.std.specs.Prelude.{◌≡◌, ◌≤◌, ◌<◌, length, IfSome};
ghost use Rattle.std.specs.List.{remove};
ghost use Rattle.std.specs.Option.{option_map};
ghost use Rattle.blz_value.specs.Names.{place_of};
ghost use Rattle.topo_forms.specs.Sites as sites_spec;
ghost use Rattle.topo_forms.specs.Validity.Columns as spec;
ghost use Rattle.topo_types.specs.Code.Built.{site_seen, sites_seen};

use crate::validity::spots::{output_of, port_of};
use crate::view::sites::Site;
use blz_value::Str;
use topo_forms::{Body, Side, SourceEntry, Spot, Stock, StreamEntry};

/// Whether the port is there and doesn't have these columns.
pub(crate) fn differs(columns: &[Str], port: Option<&Side>) -> bool
    ensures { result ≡ spec.differs columns.now (option_map (λ s. s.now) port.entry) }
{
    match port {
        Some(port) => columns != port.columns.as_slice(),
        None => false,
    }
}

fn meets_others(sites: &[Site<'_>], columns: &[Str], spots: &[Spot]) -> bool
    ensures { result ≡ spec.meets_others (sites_seen sites.now) columns.now spots.now }
{
    spots
        .iter()
        .any(|spot| differs(columns, port_of(sites, spot)))
}

fn has_column(columns: &[Str], name: &str) -> bool
    ensures { result ≡ spec.has_column columns.now name.now }
{
    columns.iter().any(|column| *name == *column.as_str())
}

// Whether one of the columns, that with this number aside, has the name.
fn has_other_column(columns: &[Str], number: usize, name: &str) -> bool
    requires { number ≤ length columns.now }
    ensures { result ≡ spec.has_column (remove columns.now number) name.now }
{
    if number == columns.len() {
        return has_column(columns, name);
    }
    has_column(&columns[..number], name) || has_column(&columns[number + 1..], name)
}

// The first place of a name.
fn column_place(columns: &[Str], name: &Str) -> Option<usize>
    ensures value { result ≡ place_of columns.now name.now }
    ensures within { IfSome result (λ place. place < length columns.now) }
{
    columns.iter().position(|column| column.equals(name))
}

// The number of the first column of this name; where there is none, how many there are.
fn column_number(columns: &[Str], name: &Str) -> usize
    ensures value { result ≡ sites_spec.column_number columns.now name.now }
    ensures within { result ≤ length columns.now }
{
    match column_place(columns, name) {
        Some(place) => place,
        None => columns.len(),
    }
}

fn clashes_in_stock(stock: &Stock) -> bool
    ensures { result ≡ spec.clashes_in_stock stock.now }
{
    match stock {
        Stock::Split { columns, split } => {
            let columns = columns.as_slice();
            let number = column_number(columns, split);
            has_other_column(columns, number, "at") || has_other_column(columns, number, "word")
        }
        Stock::Latest { .. } => false,
        Stock::Number { columns } => has_column(columns.as_slice(), "n"),
    }
}

/// Whether the source goes to a port with other columns.
pub(crate) fn is_unlike_source(sites: &[Site<'_>], source: &SourceEntry) -> bool
    ensures { result ≡ spec.columns_source (sites_seen sites.now) source.now }
{
    meets_others(sites, source.columns.as_slice(), source.to.as_slice())
}

/// Whether a column of the component's output would stand twice.
pub(crate) fn is_clashing_component(site: &Site<'_>) -> bool
    ensures { result ≡ spec.columns_component (site_seen site.now) }
{
    match &site.entry.body {
        Body::Module(_) | Body::None => false,
        Body::Stock(stock) => clashes_in_stock(stock),
    }
}

/// Whether the stream goes to a port whose columns aren't those of its output.
pub(crate) fn is_unlike_stream(sites: &[Site<'_>], stream: &StreamEntry) -> bool
    ensures { result ≡ spec.columns_stream (sites_seen sites.now) stream.now }
{
    match output_of(sites, &stream.from) {
        Some(output) => meets_others(sites, output.columns.as_slice(), stream.to.as_slice()),
        None => false,
    }
}
