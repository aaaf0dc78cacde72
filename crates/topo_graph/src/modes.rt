//! Another mode of one component, as it is written and by numbers.
ghost use Rattle.std.specs.Prelude.{◌≡◌, ◌<◌, ◌≤◌, ◌^◌, length, map, slice_index_or, slice_set, IfOk};
ghost use Rattle.topo_graph.specs.Code.Chosen.{with_members, IsKeyAmong};
ghost use Rattle.topo_forms.specs.Kept.{view_kept, component_kept};
ghost use Rattle.topo_forms.specs.Modes as spec;
ghost use Rattle.topo_forms.specs.Sites.{no_entry};
ghost use Rattle.topo_forms.specs.View.{component_with_mode, with_mode, no_component};

use bloom_forms::Mode;
use blz_value::{Items, Str, is_in};
use std::alloc::{AllocError, Global};
use topo_forms::{ComponentEntry, Kept, KeptComponent, ModeName, Topology};

// ---- as it is written

// The names whose numbers are in a set, by a walk over the names.
fn names_with(alloc: Global, names: &[Str], set: u64) -> Result<Vec<Str>, AllocError>
    ensures { IfOk result (λ some. some.items ≡ with_members set names.now) }
{
    let mut some = Vec::new(alloc);
    for (number, name) in names.iter().enumerate() {
        if is_in(number, set) {
            some.push(name.copy()?)?;
        }
    }
    Ok(some)
}

// The names of the attributes in a set.
fn names_in(alloc: Global, names: &[Str], set: u64) -> Result<Vec<Str>, AllocError>
    requires few { length names.now ≤ 64 }
    requires within { set < 2 ^ length names.now }
    ensures { IfOk result (λ some. some.items ≡ spec.names_in names.now set) }
{
    names_with(alloc, names, set)
}

fn mode_name(mode: Mode) -> ModeName
    ensures { result ≡ spec.mode_name mode }
{
    match mode {
        Mode::Free => ModeName::Free,
        Mode::Pass(_) => ModeName::Pass,
        Mode::Seal(_) => ModeName::Seal,
        Mode::Order => ModeName::Order,
    }
}

fn key_names(alloc: Global, names: &[Str], mode: Mode) -> Result<Vec<Str>, AllocError>
    requires few { length names.now ≤ 64 }
    requires key { IsKeyAmong names.now mode }
    ensures { IfOk result (λ key. key.items ≡ spec.key_names names.now mode) }
{
    match mode {
        Mode::Pass(key) | Mode::Seal(key) => names_in(alloc, names, key.bits),
        Mode::Free | Mode::Order => Ok(Vec::new(alloc)),
    }
}

fn entries_with_mode(
    alloc: Global,
    names: &[Str],
    components: Vec<ComponentEntry>,
    number: usize,
    mode: Mode,
) -> Result<Vec<ComponentEntry>, AllocError>
    requires few { length names.now ≤ 64 }
    requires key { IsKeyAmong names.now mode }
    requires within { number < length components.items }
    ensures { IfOk result (λ others. others.items ≡ slice_set components.items number (spec.entry_with_mode names.now mode (slice_index_or components.items number no_entry))) }
{
    let key = Items::from_vec(key_names(alloc, names, mode)?);
    let mut others = components;
    let entry = &mut others[number];
    entry.mode = mode_name(mode);
    entry.key = key;
    Ok(others)
}

/// The topology as it is written, with this mode and key at one component.
pub(crate) fn topology_with_mode(
    alloc: Global,
    names: &[Str],
    topology: Topology,
    number: usize,
    mode: Mode,
) -> Result<Topology, AllocError>
    requires few { length names.now ≤ 64 }
    requires key { IsKeyAmong names.now mode }
    requires within { number < length topology.components }
    ensures { IfOk result (λ other. other ≡ spec.topology_with_mode names.now topology number mode) }
{
    let Topology {
        format,
        sources,
        components,
        streams,
        fds,
    } = topology;
    let others = entries_with_mode(alloc, names, components.into_vec(), number, mode)?;
    Ok(Topology {
        format,
        sources,
        components: Items::from_vec(others),
        streams,
        fds,
    })
}

// ---- by numbers

fn components_with_mode(
    components: Vec<KeptComponent>,
    number: usize,
    mode: Mode,
) -> Vec<KeptComponent>
    requires { number < length components.items }
    ensures { map component_kept result.items ≡ slice_set (map component_kept components.items) number (component_with_mode mode (slice_index_or (map component_kept components.items) number no_component)) }
{
    let mut others = components;
    others[number].mode = mode;
    others
}

/// The parts of a topology with another mode of one component.
pub(crate) fn kept_with_mode(kept: Kept, number: usize, mode: Mode) -> Kept
    requires { number < length kept.components }
    ensures { view_kept result ≡ with_mode (view_kept kept) number mode }
{
    let Kept {
        attributes,
        streams,
        components,
        fds,
    } = kept;
    let others = components_with_mode(components.into_vec(), number, mode);
    Kept {
        attributes,
        streams,
        components: Items::from_vec(others),
        fds,
    }
}
