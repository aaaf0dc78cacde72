//! Whether a column's attribute lies in the gates of outputs.
ghost use Rattle.std.specs.Prelude.{◌≡◌, ◌<◌, ◌≤◌, [], not, length, IfOk};
ghost use Rattle.bloom_forms.specs.Program.{IsStock, output_columns};
ghost use Rattle.bloom_forms.specs.Annotation.{gate_of_output};
ghost use Rattle.topo_forms.specs.Attributes.{with_columns};
ghost use Rattle.shard_route.specs.Sharding as spec;

use bloom_forms::Program;
use blz_value::{Attrs, Str};
use fd_closure::{AttrNames, NamesFault};
use path_annotate::gate_of;
use std::alloc::{AllocError, Global};
use topo_forms::Valid;

// A list of these names, each once, which are no more than attributes may be.
fn names_of(alloc: Global, list: &[Str]) -> Result<AttrNames, AllocError>
    requires { length list.now ≤ 64 }
    ensures { IfOk result (λ names. names ≡ with_columns [] list.now) }
{
    let mut names = AttrNames::new(alloc);
    for name in list {
        match names.add(name) {
            Ok(_) => {}
            Err(NamesFault::Full) => unreachable!(),
            Err(NamesFault::NoMemory) => return Err(AllocError),
        }
    }
    Ok(names)
}

// The names of a topology's attributes, by their numbers.
fn attribute_names(alloc: Global, valid: &Valid) -> Result<AttrNames, AllocError>
    ensures { IfOk result (λ names. names ≡ valid.now.view.attributes) }
{
    valid.known();
    names_of(alloc, valid.attr_names())
}

fn has_attribute(names: &AttrNames, column: &Str, set: Attrs) -> bool
    ensures { result ≡ spec.has_attribute names.now column.now set.bits }
{
    match names.find(column) {
        Some(attribute) => set.has(attribute),
        None => false,
    }
}

// Whether the gate of an output lacks the column's attribute.
fn lacks_at(
    alloc: Global,
    program: &Program,
    names: &AttrNames,
    column: &Str,
    output: u32,
) -> Result<bool, AllocError>
    requires stock { IsStock program.now }
    requires within { output < length (output_columns program.now) }
    ensures { IfOk result (λ lacks. lacks ≡ not (spec.has_attribute names.now column.now (gate_of_output names.now program.now output))) }
{
    let gate = gate_of(alloc, program, names, output)?;
    Ok(!has_attribute(names, column, gate))
}

// Whether the gate of some output of the program lacks the column's attribute.
fn lacks_in_gate(
    alloc: Global,
    program: &Program,
    names: &AttrNames,
    column: &Str,
) -> Result<bool, AllocError>
    requires { IsStock program.now }
    ensures { IfOk result (λ lacks. lacks ≡ spec.lacks_in_gate names.now column.now program.now) }
{
    for output in 0..program.output_count() {
        let lacks = lacks_at(alloc, program, names, column, output)?;
        if lacks {
            return Ok(true);
        }
    }
    Ok(false)
}

/// Whether the gate of some output of a program of the topology lacks the column's attribute.
pub(crate) fn lacks_in_gates(
    alloc: Global,
    valid: &Valid,
    program: &Program,
    column: &Str,
) -> Result<bool, AllocError>
    requires { IsStock program.now }
    ensures { IfOk result (λ lacks. lacks ≡ spec.lacks_in_gate valid.now.view.attributes column.now program.now) }
{
    let names = attribute_names(alloc, valid)?;
    lacks_in_gate(alloc, program, &names, column)
}
