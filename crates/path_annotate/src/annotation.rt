//! The roots, the gate and the notes of a program's outputs.
ghost use Rattle.std.specs.Prelude.{ℕ, ◌≡◌, ◌<◌, ◌∷◌, [], Some, length, map, IfOk};
ghost use Rattle.bloom_forms.specs.declared.module.Kind.TheVariants.{Output};
ghost use Rattle.bloom_forms.specs.declared.program.Program.TheVariants as programs;
ghost use Rattle.bloom_forms.specs.Program.{IsStock, columns_of_kind, port_columns, output_columns};
ghost use Rattle.bloom_forms.specs.Annotation as spec;
ghost use Rattle.path_annotate.specs.Code.ReadingUses.{path_note_from};

use crate::collection_roots::{all_attributes, roots_table};
use crate::kinds::{module_numbers, output_number};
use crate::readings::readings_of;
use crate::stock::{latest_roots, number_roots, split_roots};
use crate::tracing::roots_numbered;
use crate::uses::{output_gate, path_note};
use bloom_forms::{Checked, Kind, Note, Notes, Program};
use blz_value::{Attrs, Items};
use fd_closure::AttrNames;
use path_facts::{Readings, set_of_roots};
use std::alloc::{AllocError, Global};

fn module_roots(
    alloc: Global,
    checked: &Checked,
    names: &AttrNames,
    output: u32,
) -> Result<Vec<Option<u8>>, AllocError>
    requires { output < length (columns_of_kind Output checked.now.form.collections) }
    ensures { IfOk result (λ roots. roots.items ≡ spec.roots_of_output names.now (programs.Module checked.now) output) }
{
    let table = roots_table(alloc, names, checked)?;
    let number = output_number(alloc, checked, output)?;
    Vec::from_slice(alloc, roots_numbered(&table, number))
}

/// The root of each column of an output, numbered from 0: where its values are copies, the attribute of the
/// port's column from which they come.
pub fn roots(
    alloc: Global,
    program: &Program,
    names: &AttrNames,
    output: u32,
) -> Result<Vec<Option<u8>>, AllocError>
    requires stock { IsStock program.now }
    requires within { output < length (output_columns program.now) }
    ensures { IfOk result (λ roots. roots.items ≡ spec.roots_of_output names.now program.now output) }
{
    match program {
        Program::Module(checked) => module_roots(alloc, checked, names, output),
        Program::Split { columns, split } => {
            split_roots(alloc, names, columns.as_slice(), *split)
        }
        Program::Latest { columns, keys } => {
            latest_roots(alloc, names, columns.as_slice(), keys.as_slice())
        }
        Program::Number { columns } => number_roots(alloc, names, columns.as_slice()),
    }
}

fn module_gate(
    alloc: Global,
    checked: &Checked,
    names: &AttrNames,
    output: u32,
) -> Result<Attrs, AllocError>
    requires { output < length (columns_of_kind Output checked.now.form.collections) }
    ensures { IfOk result (λ gate. gate.bits ≡ spec.gate_of_output names.now (programs.Module checked.now) output) }
{
    let readings = readings_of(alloc, names, checked)?;
    let number = output_number(alloc, checked, output)?;
    let all = all_attributes(names);
    Ok(output_gate(all, readings.rules.as_slice(), number))
}

/// The gate of an output, numbered from 0: the attributes by which all operators on the way to it
/// keep records apart.
pub fn gate_of(
    alloc: Global,
    program: &Program,
    names: &AttrNames,
    output: u32,
) -> Result<Attrs, AllocError>
    requires stock { IsStock program.now }
    requires within { output < length (output_columns program.now) }
    ensures { IfOk result (λ gate. gate.bits ≡ spec.gate_of_output names.now program.now output) }
{
    match program {
        Program::Module(checked) => module_gate(alloc, checked, names, output),
        Program::Split { .. } => Ok(all_attributes(names)),
        Program::Latest { columns, keys } => {
            let roots = latest_roots(alloc, names, columns.as_slice(), keys.as_slice())?;
            Ok(set_of_roots(&roots))
        }
        Program::Number { .. } => Ok(Attrs::from_bits(0)),
    }
}

// The notes of a module's paths from one port.
fn port_notes(
    alloc: Global,
    rules: &Readings,
    port: u32,
    outputs: &[u32],
) -> Result<Vec<Option<Note>>, AllocError>
    ensures { IfOk result (λ notes. notes.items ≡ map (path_note_from rules.now port) outputs.now) }
{
    outputs
        .iter()
        .map(|output| path_note(rules, port, *output))
        .collect(alloc)
}

/// The notes of a module's paths from some ports.
pub(crate) fn ports_notes(
    alloc: Global,
    rules: &Readings,
    ports: &[u32],
    outputs: &[u32],
) -> Result<Notes, AllocError>
    ensures { IfOk result (λ notes. notes ≡ map (λ port. map (path_note_from rules.now port) outputs.now) ports.now) }
{
    let mut notes = Vec::new(alloc);
    for port in ports {
        notes.push(Items::from_vec(port_notes(alloc, rules, *port, outputs)?))?;
    }
    Ok(Notes::from_ports(notes))
}

fn module_notes(alloc: Global, checked: &Checked, names: &AttrNames) -> Result<Notes, AllocError>
    ensures { IfOk result (λ notes. notes ≡ spec.notes_of names.now (programs.Module checked.now)) }
{
    let readings = readings_of(alloc, names, checked)?;
    let ports = module_numbers(alloc, checked, Kind::Input)?;
    let outputs = module_numbers(alloc, checked, Kind::Output)?;
    ports_notes(alloc, &readings, &ports, &outputs)
}

/// The one note of each port to the one output.
pub(crate) fn stock_notes(alloc: Global, ports: &[Note]) -> Result<Notes, AllocError>
    ensures { IfOk result (λ notes. notes ≡ map (λ note. Some note ∷ []) ports.now) }
{
    let mut notes = Vec::new(alloc);
    for note in ports {
        notes.push(Items::from_vec(vec![in alloc; Some(*note)]?))?;
    }
    Ok(Notes::from_ports(notes))
}

/// The notes of all paths of a program.
pub fn annotate(alloc: Global, program: &Program, names: &AttrNames) -> Result<Notes, AllocError>
    requires stock { IsStock program.now }
    ensures notes { IfOk result (λ notes. notes ≡ spec.notes_of names.now program.now) }
    ensures each { IfOk result (λ notes. (port output : ℕ) → port < length (port_columns program.now) → output < length (output_columns program.now) → spec.note_at notes port output ≡ spec.note_of names.now program.now port output) }
{
    match program {
        Program::Module(checked) => module_notes(alloc, checked, names),
        Program::Split { .. } => stock_notes(alloc, &[Note::CR]),
        Program::Latest { columns, keys } => {
            let roots = latest_roots(alloc, names, columns.as_slice(), keys.as_slice())?;
            let keys = set_of_roots(&roots);
            stock_notes(alloc, &[Note::OW(keys), Note::OR(keys)])
        }
        Program::Number { .. } => stock_notes(alloc, &[Note::OW(Attrs::from_bits(0))]),
    }
}
