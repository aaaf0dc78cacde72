//! Components by numbers: ports, outputs with roots and gates, and notes.
ghost use Rattle.std.specs.Prelude.{◌≡◌, ◌≤◌, ◌<◌, map, length, option_map, IfOk, All};
ghost use Rattle.std.specs.List.{enumerate_from};
ghost use Rattle.bloom_forms.specs.Annotation.{notes_of};
ghost use Rattle.bloom_forms.specs.Roots.{no_roots as no_roots_of};
ghost use Rattle.path_annotate.specs.Outputs.{roots_of_outputs, gates_of_outputs};
ghost use Rattle.topo_forms.specs.ViewOf as spec;
ghost use Rattle.topo_forms.specs.Kept.{component_kept, output_kept, port_kept};
ghost use Rattle.topo_types.specs.Code.Bodies.{gates_seen, AreFound};
ghost use Rattle.topo_types.specs.Code.Built.{site_seen, sites_seen, IsBuilt};

use crate::view::numbers::{attributes_of, mode_from, note_from, numbers_of};
use crate::view::sites::Site;
use bloom_forms::{Note, Notes};
use blz_value::{Attrs, Items, Str};
use fd_closure::AttrNames;
use path_annotate::{annotate, program_facts};
use std::alloc::{AllocError, Global};
use topo_forms::{Declared, KeptComponent, KeptOutput, KeptPort, Side};

// ---- what is found of bodies

// What is found of a component's body, nothing without one: its notes, and of each output the roots
// and the gate.
#[derive(Drop)]
struct BodyFacts {
    notes: Option<Notes>,
    roots: Option<Items<Items<Option<u8>>>>,
    gates: Option<Items<Attrs>>,
}

fn body_facts(alloc: Global, names: &AttrNames, site: &Site<'_>) -> Result<BodyFacts, AllocError>
    requires { IsBuilt (site_seen site.now) }
    ensures { IfOk result (AreFound names.now (site_seen site.now)) }
{
    match &site.program {
        Some(program) => {
            let facts = program_facts(alloc, program, names)?;
            Ok(BodyFacts {
                notes: Some(facts.notes),
                roots: Some(facts.roots),
                gates: Some(facts.gates),
            })
        }
        None => Ok(BodyFacts {
            notes: None,
            roots: None,
            gates: None,
        }),
    }
}

// ---- ports and outputs

fn port_of(alloc: Global, names: &AttrNames, port: &Side) -> Result<KeptPort, AllocError>
    ensures { IfOk result (λ kept. port_kept kept ≡ spec.port_view names.now port.now) }
{
    let name = port.name.copy()?;
    let columns = Items::from_vec(numbers_of(alloc, names, port.columns.as_slice())?);
    Ok(KeptPort { name, columns })
}

fn ports_of(alloc: Global, names: &AttrNames, ports: &[Side]) -> Result<Items<KeptPort>, AllocError>
    ensures { IfOk result (λ kept. map port_kept kept ≡ map (spec.port_view names.now) ports.now) }
{
    let mut kept = Vec::new(alloc);
    for port in ports {
        kept.push(port_of(alloc, names, port)?)?;
    }
    Ok(Items::from_vec(kept))
}

// No root for each of these columns.
fn no_roots(alloc: Global, columns: &[Str]) -> Result<Vec<Option<u8>>, AllocError>
    ensures { IfOk result (λ roots. roots.items ≡ no_roots_of columns.now) }
{
    columns.iter().map(|_| None).collect(alloc)
}

// The roots of the columns of an output.
#[tactic(auto, using(crate::proofs::Faults::BuiltFacts::no_roots_found))]
fn roots_with(
    alloc: Global,
    names: &AttrNames,
    site: &Site<'_>,
    roots: &Option<Items<Items<Option<u8>>>>,
    number: usize,
    output: &Side,
) -> Result<Vec<Option<u8>>, AllocError>
    requires built { IsBuilt (site_seen site.now) }
    requires roots { roots.now ≡ option_map (roots_of_outputs names.now) site.now.program }
    requires within { number < length site.now.outputs }
    ensures { IfOk result (λ roots. roots.items ≡ spec.roots_with names.now site.now.program (number, output.now)) }
{
    match roots {
        Some(all) => Vec::from_slice(alloc, all.as_slice()[number].as_slice()),
        None => no_roots(alloc, output.columns.as_slice()),
    }
}

// The gate of an output.
#[tactic(auto, using(crate::proofs::Faults::BuiltFacts::no_gate_found))]
fn gate_with(
    names: &AttrNames,
    site: &Site<'_>,
    gates: &Option<Items<Attrs>>,
    number: usize,
    output: &Side,
) -> Attrs
    requires built { IsBuilt (site_seen site.now) }
    requires gates { option_map gates_seen gates.now ≡ option_map (gates_of_outputs names.now) site.now.program }
    requires within { number < length site.now.outputs }
    ensures { result ≡ spec.gate_with names.now site.now.program (number, output.now) }
{
    match gates {
        Some(all) => all.as_slice()[number],
        None => Attrs::from_bits(0),
    }
}

fn output_of(
    alloc: Global,
    names: &AttrNames,
    site: &Site<'_>,
    found: &BodyFacts,
    number: usize,
    output: &Side,
) -> Result<KeptOutput, AllocError>
    requires built { IsBuilt (site_seen site.now) }
    requires found { AreFound names.now (site_seen site.now) found.now }
    requires within { number < length site.now.outputs }
    ensures { IfOk result (λ kept. output_kept kept ≡ spec.output_view names.now site.now.program (number, output.now)) }
{
    let name = output.name.copy()?;
    let columns = attributes_of(alloc, names, output.columns.as_slice())?;
    let own = roots_with(alloc, names, site, &found.roots, number, output)?;
    let gate = gate_with(names, site, &found.gates, number, output);
    Ok(KeptOutput {
        name,
        columns,
        roots: Items::from_vec(own),
        gate,
    })
}

fn outputs_of(
    alloc: Global,
    names: &AttrNames,
    site: &Site<'_>,
    found: &BodyFacts,
) -> Result<Items<KeptOutput>, AllocError>
    requires built { IsBuilt (site_seen site.now) }
    requires found { AreFound names.now (site_seen site.now) found.now }
    ensures { IfOk result (λ kept. map output_kept kept ≡ map (spec.output_view names.now site.now.program) (enumerate_from 0 site.now.outputs)) }
{
    let mut kept = Vec::new(alloc);
    for (number, output) in site.outputs.as_slice().iter().enumerate() {
        kept.push(output_of(alloc, names, site, found, number, output)?)?;
    }
    Ok(Items::from_vec(kept))
}

// ---- notes

/// The notes that a body gives, None where there is none.
pub(crate) fn derived_notes(
    alloc: Global,
    names: &AttrNames,
    site: &Site<'_>,
) -> Result<Option<Notes>, AllocError>
    requires { IsBuilt (site_seen site.now) }
    ensures { IfOk result (λ notes. notes ≡ option_map (notes_of names.now) site.now.program) }
{
    match &site.program {
        Some(program) => Ok(Some(annotate(alloc, program, names)?)),
        None => Ok(None),
    }
}

// The note that is declared of a path.
fn declared_note(names: &AttrNames, notes: &[Declared], port: &Str, output: &Str) -> Option<Note>
    ensures { result ≡ spec.declared_note names.now notes.now port.now output.now }
{
    let declared = notes
        .iter()
        .find(|note| note.from.equals(port) && note.to.equals(output));
    match declared {
        Some(note) => Some(note_from(names, note.note, note.gate.as_slice())),
        None => None,
    }
}

/// The note that a body gives a path.
#[tactic(auto, using(crate::proofs::Faults::BuiltSites::none_derived))]
pub(crate) fn derived_note(
    names: &AttrNames,
    site: &Site<'_>,
    derived: &Option<Notes>,
    port: usize,
    output: usize,
) -> Option<Note>
    requires built { IsBuilt (site_seen site.now) }
    requires notes { derived.now ≡ option_map (notes_of names.now) site.now.program }
    requires port { port < length site.now.ports }
    requires output { output < length site.now.outputs }
    ensures { result ≡ spec.derived_note names.now site.now.program port output }
{
    match derived {
        Some(notes) => notes.at(port as u32, output as u32),
        None => None,
    }
}

// The notes of the paths from a port.
fn notes_from(
    alloc: Global,
    names: &AttrNames,
    site: &Site<'_>,
    derived: &Option<Notes>,
    number: usize,
    port: &Side,
) -> Result<Items<Option<Note>>, AllocError>
    requires built { IsBuilt (site_seen site.now) }
    requires notes { derived.now ≡ option_map (notes_of names.now) site.now.program }
    requires port { number < length site.now.ports }
    ensures { IfOk result (λ row. row ≡ map (spec.note_view names.now (site_seen site.now) (number, port.now)) (enumerate_from 0 site.now.outputs)) }
{
    let declared = site.entry.notes.as_slice();
    let mut row = Vec::new(alloc);
    for (at, output) in site.outputs.as_slice().iter().enumerate() {
        let given = declared_note(names, declared, &port.name, &output.name);
        row.push(given.or(derived_note(names, site, derived, number, at)))?;
    }
    Ok(Items::from_vec(row))
}

// The notes of the paths from each port.
fn rows_with(
    alloc: Global,
    names: &AttrNames,
    site: &Site<'_>,
    derived: &Option<Notes>,
) -> Result<Items<Items<Option<Note>>>, AllocError>
    requires built { IsBuilt (site_seen site.now) }
    requires notes { derived.now ≡ option_map (notes_of names.now) site.now.program }
    ensures { IfOk result (λ rows. rows ≡ spec.notes_view names.now (site_seen site.now)) }
{
    let mut rows = Vec::new(alloc);
    for (number, port) in site.ports.as_slice().iter().enumerate() {
        rows.push(notes_from(alloc, names, site, derived, number, port)?)?;
    }
    Ok(Items::from_vec(rows))
}

// ---- components

// A number of replicas, and 0 in place of a negative one.
fn replicas_of(written: i64) -> u32
    requires { spec.count_from written ≤ 8 }
    ensures { result ≡ spec.count_from written }
{
    if written < 0 { 0 } else { written as u32 }
}

// A component that keeps the program of its site.
fn component_of(
    alloc: Global,
    names: &AttrNames,
    site: Site<'_>,
) -> Result<KeptComponent, AllocError>
    requires { IsBuilt (site_seen site) }
    ensures { IfOk result (λ kept. component_kept kept ≡ spec.component_view names.now (site_seen site.entry)) }
{
    let entry = site.entry;
    let name = entry.name.copy()?;
    let mode = mode_from(names, entry.mode, entry.key.as_slice());
    let replicas = replicas_of(entry.replicas);
    let ports = ports_of(alloc, names, site.ports.as_slice())?;
    let found = body_facts(alloc, names, &site)?;
    let outputs = outputs_of(alloc, names, &site, &found)?;
    let notes = rows_with(alloc, names, &site, &found.notes)?;
    let Site { program, .. } = site;
    Ok(KeptComponent {
        name,
        program,
        mode,
        replicas,
        ports,
        outputs,
        notes,
    })
}

/// The components by numbers, which keep the programs.
pub(crate) fn components_of(
    alloc: Global,
    names: &AttrNames,
    sites: Vec<Site<'_>>,
) -> Result<Vec<KeptComponent>, AllocError>
    requires { All IsBuilt (sites_seen sites.items) }
    ensures { IfOk result (λ components. map component_kept components.items ≡ map (spec.component_view names.now) (sites_seen sites.entry.items)) }
{
    let mut components = Vec::new(alloc);
    for site in sites {
        components.push(component_of(alloc, names, site)?)?;
    }
    Ok(components)
}
