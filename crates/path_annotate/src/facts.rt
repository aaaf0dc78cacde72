//! What is found of a program once: its notes, and of each output the roots and the gate.
ghost use Rattle.std.specs.Prelude.{◌≡◌, ◌∷◌, [], map, IfOk};
ghost use Rattle.bloom_forms.specs.declared.program.Program.TheVariants as programs;
ghost use Rattle.bloom_forms.specs.Program.{IsStock};
ghost use Rattle.bloom_forms.specs.Annotation.{notes_of};
ghost use Rattle.bloom_forms.specs.HeadRoots as heads;
ghost use Rattle.path_annotate.specs.Code.ReadingUses.{gate_towards};
ghost use Rattle.path_annotate.specs.Outputs as spec;

use crate::annotation::{ports_notes, stock_notes};
use crate::collection_roots::{all_attributes, roots_table};
use crate::kinds::module_numbers;
use crate::readings::readings_with;
use crate::stock::{latest_roots, number_roots, split_roots};
use crate::tracing::roots_numbered;
use crate::uses::output_gate;
use bloom_forms::{Checked, Kind, Note, Notes, Program};
use blz_value::{Attrs, Items};
use fd_closure::AttrNames;
use path_facts::{Reading, set_of_roots};
use std::alloc::{AllocError, Global};

/// What is found of a program.
#[derive(Drop)]
pub struct ProgramFacts {
    /// The notes of all paths.
    pub notes: Notes,
    /// The root of each column of each output.
    pub roots: Items<Items<Option<u8>>>,
    /// The gate of each output.
    pub gates: Items<Attrs>,
}

// The roots of the collections with these numbers.
fn roots_of_all(
    alloc: Global,
    table: &[Items<Option<u8>>],
    numbers: &[u32],
) -> Result<Vec<Items<Option<u8>>>, AllocError>
    ensures { IfOk result (λ roots. roots.items ≡ map (heads.roots_numbered table.now) numbers.now) }
{
    let mut roots = Vec::new(alloc);
    for number in numbers {
        let own = Vec::from_slice(alloc, roots_numbered(table, *number))?;
        roots.push(Items::from_vec(own))?;
    }
    Ok(roots)
}

// The gates of the heads with these numbers.
fn gates_of_all(
    alloc: Global,
    all: Attrs,
    rules: &[Reading],
    numbers: &[u32],
) -> Result<Vec<Attrs>, AllocError>
    ensures { IfOk result (λ gates. map (λ gate. gate.bits) gates.items ≡ map (λ n. gate_towards all.bits n rules.now) numbers.now) }
{
    let mut gates = Vec::new(alloc);
    for number in numbers {
        gates.push(output_gate(all, rules, *number))?;
    }
    Ok(gates)
}

fn module_facts(
    alloc: Global,
    checked: &Checked,
    names: &AttrNames,
) -> Result<ProgramFacts, AllocError>
    ensures notes { IfOk result (λ facts. facts.notes ≡ notes_of names.now (programs.Module checked.now)) }
    ensures roots { IfOk result (λ facts. facts.roots ≡ spec.roots_of_outputs names.now (programs.Module checked.now)) }
    ensures gates { IfOk result (λ facts. map (λ gate. gate.bits) facts.gates ≡ spec.gates_of_outputs names.now (programs.Module checked.now)) }
{
    let table = roots_table(alloc, names, checked)?;
    let readings = readings_with(alloc, names, checked, &table)?;
    let ports = module_numbers(alloc, checked, Kind::Input)?;
    let outputs = module_numbers(alloc, checked, Kind::Output)?;
    let notes = ports_notes(alloc, &readings, &ports, &outputs)?;
    let roots = roots_of_all(alloc, &table, &outputs)?;
    let all = all_attributes(names);
    let gates = gates_of_all(alloc, all, readings.rules.as_slice(), &outputs)?;
    Ok(ProgramFacts {
        notes,
        roots: Items::from_vec(roots),
        gates: Items::from_vec(gates),
    })
}

// What is found of a body with one output.
fn one_output(
    alloc: Global,
    notes: Notes,
    roots: Vec<Option<u8>>,
    gate: Attrs,
) -> Result<ProgramFacts, AllocError>
    ensures notes { IfOk result (λ facts. facts.notes ≡ notes) }
    ensures roots { IfOk result (λ facts. facts.roots ≡ roots.items ∷ []) }
    ensures gates { IfOk result (λ facts. facts.gates ≡ gate ∷ []) }
{
    let all = vec![in alloc; Items::from_vec(roots)]?;
    let gates = vec![in alloc; gate]?;
    Ok(ProgramFacts {
        notes,
        roots: Items::from_vec(all),
        gates: Items::from_vec(gates),
    })
}

/// The notes of all paths of a program, and the roots and the gate of each of its outputs: the
/// same as `annotate`, `roots` and `gate_of` give, by one walk over the rules.
pub fn program_facts(
    alloc: Global,
    program: &Program,
    names: &AttrNames,
) -> Result<ProgramFacts, AllocError>
    requires stock { IsStock program.now }
    ensures notes { IfOk result (λ facts. facts.notes ≡ notes_of names.now program.now) }
    ensures roots { IfOk result (λ facts. facts.roots ≡ spec.roots_of_outputs names.now program.now) }
    ensures gates { IfOk result (λ facts. map (λ gate. gate.bits) facts.gates ≡ spec.gates_of_outputs names.now program.now) }
{
    match program {
        Program::Module(checked) => module_facts(alloc, checked, names),
        Program::Split { columns, split } => {
            let roots = split_roots(alloc, names, columns.as_slice(), *split)?;
            let notes = stock_notes(alloc, &[Note::CR])?;
            one_output(alloc, notes, roots, all_attributes(names))
        }
        Program::Latest { columns, keys } => {
            let roots = latest_roots(alloc, names, columns.as_slice(), keys.as_slice())?;
            let gate = set_of_roots(&roots);
            let notes = stock_notes(alloc, &[Note::OW(gate), Note::OR(gate)])?;
            one_output(alloc, notes, roots, gate)
        }
        Program::Number { columns } => {
            let roots = number_roots(alloc, names, columns.as_slice())?;
            let none = Attrs::from_bits(0);
            let notes = stock_notes(alloc, &[Note::OW(none)])?;
            one_output(alloc, notes, roots, none)
        }
    }
}
