//! Streams by numbers.
ghost use Rattle.std.specs.Prelude.{◌≡◌, ◌≤◌, ◌++◌, map, length, IfOk, OnOk, All};
ghost use Rattle.topo_forms.specs.Sites.{port_end as port_end_of};
ghost use Rattle.topo_forms.specs.ViewOf as spec;
ghost use Rattle.topo_forms.specs.Kept.{stream_kept};
ghost use Rattle.topo_types.specs.Code.Built.{sites_seen, IsBuilt};

use crate::view::numbers::{attributes_of, key_of};
use crate::view::sites::{Site, output_end, outputs_at, port_end, side_columns};
use blz_value::{Items, Str};
use fd_closure::AttrNames;
use std::alloc::{AllocError, Global};
use topo_forms::{KeptStream, SourceEntry, Spot, StreamEntry};

// The ports that some spots name, by numbers.
fn ends_of(
    alloc: Global,
    sites: &[Site<'_>],
    spots: &[Spot],
) -> Result<Items<(u32, u32)>, AllocError>
    requires few { length sites.now ≤ 32 }
    requires built { All IsBuilt (sites_seen sites.now) }
    ensures { IfOk result (λ ends. ends ≡ map (port_end_of (sites_seen sites.now)) spots.now) }
{
    let mut ends = Vec::new(alloc);
    for spot in spots {
        ends.push(port_end(sites, spot))?;
    }
    Ok(Items::from_vec(ends))
}

fn source_of(
    alloc: Global,
    names: &AttrNames,
    sites: &[Site<'_>],
    source: &SourceEntry,
) -> Result<KeptStream, AllocError>
    requires few { length sites.now ≤ 32 }
    requires built { All IsBuilt (sites_seen sites.now) }
    ensures { IfOk result (λ stream. stream_kept stream ≡ spec.source_view names.now (sites_seen sites.now) source.now) }
{
    let name = source.name.copy()?;
    let columns = attributes_of(alloc, names, source.columns.as_slice())?;
    let key = key_of(names, source.seal.as_slice());
    let to = ends_of(alloc, sites, source.to.as_slice())?;
    Ok(KeptStream {
        name,
        origin: None,
        columns,
        key,
        to,
    })
}

// The columns of the output with a number, and none past the end.
fn output_columns<'a>(sites: &'a [Site<'_>], output: (u32, u32)) -> &'a [Str]
    ensures { result.now ≡ spec.output_columns_at (sites_seen sites.now) (output.0, output.1) }
{
    side_columns(outputs_at(sites, output.0 as usize), output.1 as usize)
}

fn stream_of(
    alloc: Global,
    names: &AttrNames,
    sites: &[Site<'_>],
    stream: &StreamEntry,
) -> Result<KeptStream, AllocError>
    requires few { length sites.now ≤ 32 }
    requires built { All IsBuilt (sites_seen sites.now) }
    ensures { IfOk result (λ kept. stream_kept kept ≡ spec.stream_view names.now (sites_seen sites.now) stream.now) }
{
    let name = stream.name.copy()?;
    let output = output_end(sites, &stream.from);
    let columns = attributes_of(alloc, names, output_columns(sites, output))?;
    let to = ends_of(alloc, sites, stream.to.as_slice())?;
    Ok(KeptStream {
        name,
        origin: Some(output),
        columns,
        key: None,
        to,
    })
}

/// The streams of sources.
pub(crate) fn sources_of(
    alloc: Global,
    names: &AttrNames,
    sites: &[Site<'_>],
    sources: &[SourceEntry],
) -> Result<Vec<KeptStream>, AllocError>
    requires few { length sites.now ≤ 32 }
    requires built { All IsBuilt (sites_seen sites.now) }
    ensures { IfOk result (λ streams. map stream_kept streams.items ≡ map (spec.source_view names.now (sites_seen sites.now)) sources.now) }
{
    let mut streams = Vec::new(alloc);
    for source in sources {
        streams.push(source_of(alloc, names, sites, source)?)?;
    }
    Ok(streams)
}

/// Adds the streams that come from outputs.
pub(crate) fn add_streams(
    alloc: Global,
    names: &AttrNames,
    sites: &[Site<'_>],
    entries: &[StreamEntry],
    streams: &mut Vec<KeptStream>,
) -> Result<(), AllocError>
    requires few { length sites.now ≤ 32 }
    requires built { All IsBuilt (sites_seen sites.now) }
    ensures { OnOk result (map stream_kept streams.new.items ≡ map stream_kept streams.old.items ++ map (spec.stream_view names.now (sites_seen sites.now)) entries.now) }
{
    for entry in entries {
        streams.push(stream_of(alloc, names, sites, entry)?)?;
    }
    Ok(())
}
