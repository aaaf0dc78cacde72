//! Components with their bodies: the programs that they run, and their ports and outputs.
ghost use Rattle.std.specs.Prelude.{◌≡◌, ◌≤◌, ◌<◌, length, position, IfOk, IfSome, All};
ghost use Rattle.std.specs.Str.{bytes_eq};
ghost use Rattle.topo_forms.specs.Sites as spec;
ghost use Rattle.topo_types.specs.Code.Built.{site_seen, sites_seen, IsBuilt};

use crate::view::bodies::{modules_after, program_in, program_outputs, program_ports};
use bloom_forms::{Checked, Program};
use blz_value::{Items, Str, copy_all};
use std::alloc::{AllocError, Global};
use topo_forms::{ComponentEntry, Side, Spot};

/// A component with what it runs, and its ports and outputs.
#[derive(Drop)]
pub(crate) struct Site<'a> {
    /// The component as it is written.
    pub(crate) entry: &'a ComponentEntry,
    pub(crate) program: Option<Program>,
    pub(crate) ports: Items<Side>,
    pub(crate) outputs: Items<Side>,
}

fn ports_with(
    alloc: Global,
    entry: &ComponentEntry,
    program: &Option<Program>,
) -> Result<Items<Side>, AllocError>
    ensures { IfOk result (λ ports. ports ≡ spec.ports_with entry.now program.now) }
{
    match program {
        None => copy_all(alloc, entry.inputs.as_slice()),
        Some(p) => program_ports(alloc, p),
    }
}

fn outputs_with(
    alloc: Global,
    entry: &ComponentEntry,
    program: &Option<Program>,
) -> Result<Items<Side>, AllocError>
    ensures { IfOk result (λ outputs. outputs ≡ spec.outputs_with entry.now program.now) }
{
    match program {
        None => copy_all(alloc, entry.outputs.as_slice()),
        Some(p) => program_outputs(alloc, p),
    }
}

/// The components with their bodies, where the modules of those with one are these.
pub(crate) fn sites_of<'a>(
    alloc: Global,
    components: &'a [ComponentEntry],
    modules: &[Checked],
) -> Result<Vec<Site<'a>>, AllocError>
    ensures { IfOk result (λ sites. sites_seen sites.items ≡ spec.sites_of components.now modules.now) }
{
    let mut sites = Vec::new(alloc);
    let mut rest = modules;
    for component in components {
        let program = program_in(alloc, &component.body, rest)?;
        rest = modules_after(&component.body, rest);
        let ports = ports_with(alloc, component, &program)?;
        let outputs = outputs_with(alloc, component, &program)?;
        sites.push(Site {
            entry: component,
            program,
            ports,
            outputs,
        })?;
    }
    Ok(sites)
}

fn site_place(sites: &[Site<'_>], name: &Str) -> Option<usize>
    ensures place { result ≡ position (λ s. bytes_eq s.entry.now.name name.now) sites.now }
    ensures within { IfSome result (λ place. place < length sites.now) }
{
    sites.iter().position(|site| site.entry.name.equals(name))
}

/// The number of the first component of this name; where there is none, how many there are.
pub(crate) fn site_number(sites: &[Site<'_>], name: &Str) -> usize
    ensures number { result ≡ spec.site_number (sites_seen sites.now) name.now }
    ensures within { result ≤ length sites.now }
{
    site_place(sites, name).unwrap_or(sites.len())
}

fn side_place(sides: &[Side], name: &Str) -> Option<usize>
    ensures place { result ≡ position (λ s. bytes_eq s.name name.now) sides.now }
    ensures within { IfSome result (λ place. place < length sides.now) }
{
    sides.iter().position(|side| side.name.equals(name))
}

/// The number of the first port or output of this name; where there is none, how many there are.
pub(crate) fn side_number(sides: &[Side], name: &Str) -> usize
    ensures number { result ≡ spec.side_number sides.now name.now }
    ensures within { result ≤ length sides.now }
{
    side_place(sides, name).unwrap_or(sides.len())
}

/// The ports of the component with a number, and none past the end.
pub(crate) fn ports_at<'a>(sites: &'a [Site<'_>], number: usize) -> &'a [Side]
    ensures { result.now ≡ (spec.site_at (sites_seen sites.now) number).ports }
{
    match sites.get(number) {
        Some(site) => site.ports.as_slice(),
        None => &[],
    }
}

/// The outputs of the component with a number, and none past the end.
pub(crate) fn outputs_at<'a>(sites: &'a [Site<'_>], number: usize) -> &'a [Side]
    ensures { result.now ≡ (spec.site_at (sites_seen sites.now) number).outputs }
{
    match sites.get(number) {
        Some(site) => site.outputs.as_slice(),
        None => &[],
    }
}

/// The columns of the port or output with a number, and none past the end.
pub(crate) fn side_columns(sides: &[Side], number: usize) -> &[Str]
    ensures { result.now ≡ (spec.side_at sides.now number).columns }
{
    match sides.get(number) {
        Some(side) => side.columns.as_slice(),
        None => &[],
    }
}

/// The port that a spot names, by numbers.
pub(crate) fn port_end(sites: &[Site<'_>], spot: &Spot) -> (u32, u32)
    requires few { length sites.now ≤ 32 }
    requires built { All IsBuilt (sites_seen sites.now) }
    ensures { result ≡ spec.port_end (sites_seen sites.now) spot.now }
{
    let component = site_number(sites, &spot.component);
    let port = side_number(ports_at(sites, component), &spot.port);
    (component as u32, port as u32)
}

/// The output that a spot names, by numbers.
pub(crate) fn output_end(sites: &[Site<'_>], spot: &Spot) -> (u32, u32)
    requires few { length sites.now ≤ 32 }
    requires built { All IsBuilt (sites_seen sites.now) }
    ensures { result ≡ spec.output_end (sites_seen sites.now) spot.now }
{
    let component = site_number(sites, &spot.component);
    let output = side_number(outputs_at(sites, component), &spot.port);
    (component as u32, output as u32)
}
