//! What carried seals ask of a stream again and again, found once.
ghost use Rattle.std.specs.Prelude.{◌≡◌, true, map, IfOk};
ghost use Rattle.std.specs.List.{list_all};
ghost use Rattle.std.specs.Option.{option_map_or};
ghost use Rattle.topo_forms.specs.Carried as carried;
ghost use Rattle.topo_graph.specs.Code.Paths as spec;
ghost use Rattle.topo_graph.specs.Code.Ports as ports_spec;
ghost use Rattle.topo_forms.specs.Kept.{view_kept};
ghost use Rattle.topo_forms.specs.View as view;

use crate::lookups::{
    gate_at, has_body, key_of, mode_of, note_at, origin_of, own_attrs, port_count, stream_count,
};
use crate::ports::set_of;
use bloom_forms::{Mode, Note};
use blz_value::{Attrs, Fd, Items, Path, closed, is_in, union_of};
use std::alloc::{AllocError, Global};
use topo_forms::Kept;

// The ports with a note towards an output.
fn ports_towards(
    alloc: Global,
    kept: &Kept,
    component: usize,
    output: usize,
) -> Result<Vec<usize>, AllocError>
    ensures { IfOk result (λ ports. ports.items ≡ view.ports_towards (view_kept kept.now) component output) }
{
    (0..port_count(kept, component))
        .filter(|port| note_at(kept, component, *port, output).is_some())
        .collect(alloc)
}

// The streams into each of some ports.
fn sets_into(
    alloc: Global,
    rows: &[Items<u64>],
    component: usize,
    ports: &[usize],
) -> Result<Vec<u64>, AllocError>
    ensures { IfOk result (λ sets. sets.items ≡ map (ports_spec.at_port rows.now component) ports.now) }
{
    ports
        .iter()
        .map(|port| set_of(rows, component, *port))
        .collect(alloc)
}

fn is_some_set(set: u64) -> bool
    ensures { result ≡ spec.is_some_set set }
{
    set != 0
}

fn are_some_sets(sets: &[u64]) -> bool
    ensures { result ≡ list_all spec.is_some_set sets.now }
{
    sets.iter().all(|set| is_some_set(*set))
}

fn is_confluent(note: Option<Note>) -> bool
    ensures { result ≡ option_map_or carried.is_confluent note true }
{
    match note {
        Some(Note::OR(_) | Note::OW(_)) => false,
        Some(Note::CR | Note::CW) | None => true,
    }
}

fn is_confluent_at(kept: &Kept, component: usize, port: usize, output: usize) -> bool
    ensures { result ≡ option_map_or carried.is_confluent (view.note_at (view_kept kept.now) component port output) true }
{
    is_confluent(note_at(kept, component, port, output))
}

fn are_confluent(kept: &Kept, component: usize, output: usize, ports: &[usize]) -> bool
    ensures { result ≡ list_all (λ p. option_map_or carried.is_confluent (view.note_at (view_kept kept.now) component p output) true) ports.now }
{
    ports
        .iter()
        .all(|port| is_confluent_at(kept, component, *port, output))
}

// Whether the notes towards an output allow its component's mode to pass seals on, where these are
// the ports with such a note.
fn allows_notes(kept: &Kept, component: usize, output: usize, ports: &[usize]) -> bool
    requires { ports.now ≡ view.ports_towards (view_kept kept.now) component output }
    ensures { result ≡ carried.allows_notes (view_kept kept.now) (view.mode_of (view_kept kept.now) component) component output }
{
    match mode_of(kept, component) {
        Mode::Pass(_) => are_confluent(kept, component, output, ports),
        Mode::Free | Mode::Seal(_) | Mode::Order => true,
    }
}

// The dependencies that are usable at a component.
fn usable_fds(
    alloc: Global,
    fds: &[Fd],
    usable: &[u64],
    component: usize,
) -> Result<Vec<Fd>, AllocError>
    ensures { IfOk result (λ some. some.items ≡ spec.fds_by fds.now usable.now component) }
{
    fds.iter()
        .zip(usable)
        .filter(|pair| is_in(component, *pair.1))
        .map(|pair| *pair.0)
        .collect(alloc)
}

fn mode_key(mode: Mode) -> Option<Attrs>
    ensures { result ≡ view.mode_key mode }
{
    match mode {
        Mode::Pass(key) | Mode::Seal(key) => Some(key),
        Mode::Free | Mode::Order => None,
    }
}

fn path_of_output(
    alloc: Global,
    kept: &Kept,
    rows: &[Items<u64>],
    usable: &[u64],
    declared: Option<Attrs>,
    end: (u32, u32),
) -> Result<Path, AllocError>
    ensures { IfOk result (λ path. path ≡ spec.path_from (view_kept kept.now) rows.now usable.now declared (Some (end.0, end.1))) }
{
    let component = end.0 as usize;
    let output = end.1 as usize;
    let ports = ports_towards(alloc, kept, component, output)?;
    let fds = usable_fds(alloc, kept.fds.as_slice(), usable, component)?;
    let sets = sets_into(alloc, rows, component, &ports)?;
    Ok(Path {
        declared,
        key: mode_key(mode_of(kept, component)),
        body: has_body(kept, component),
        some: ports.len() > 0,
        fed: are_some_sets(&sets),
        reach: closed(gate_at(kept, component, output), &fds),
        own: own_attrs(alloc, kept, component, output)?,
        notes: allows_notes(kept, component, output, &ports),
        behind: union_of(&sets),
    })
}

fn path_of(
    alloc: Global,
    kept: &Kept,
    rows: &[Items<u64>],
    usable: &[u64],
    stream: usize,
) -> Result<Path, AllocError>
    ensures { IfOk result (λ path. path ≡ spec.path_by (view_kept kept.now) rows.now usable.now stream) }
{
    let declared = key_of(kept, stream);
    match origin_of(kept, stream) {
        Some(output) => path_of_output(alloc, kept, rows, usable, declared, output),
        None => Ok(Path {
            declared,
            key: declared,
            body: false,
            some: false,
            fed: false,
            reach: 0,
            own: 0,
            notes: false,
            behind: 0,
        }),
    }
}

/// Each stream, as carried seals look at it.
#[tactic(auto, using(blz_value::proofs::Ranges::map_below_more))]
pub(crate) fn paths_of(
    alloc: Global,
    kept: &Kept,
    rows: &[Items<u64>],
    usable: &[u64],
) -> Result<Vec<Path>, AllocError>
    ensures { IfOk result (λ paths. paths.items ≡ spec.paths_by (view_kept kept.now) rows.now usable.now) }
{
    let mut paths = Vec::new(alloc);
    for stream in 0..stream_count(kept) {
        paths.push(path_of(alloc, kept, rows, usable, stream)?)?;
    }
    Ok(paths)
}
