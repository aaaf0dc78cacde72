//! A component as several: the faults in their order, and the copies in their topology.
ghost use Rattle.std.specs.Prelude.{ℕ, ◌≡◌, ◌≤◌, ◌<◌, None, false, map, length, IfOk};
ghost use Rattle.std.specs.List.{filter_map};
ghost use Rattle.blz_value.specs.Members.{Has};
ghost use Rattle.bloom_forms.specs.Form.{formula_of};
ghost use Rattle.bloom_forms.specs.Query.{Formula};
ghost use Rattle.bloom_forms.specs.declared.program.Program.TheVariants.{Module};
ghost use Rattle.topo_forms.specs.Allowed.{IsAllowed};
ghost use Rattle.topo_forms.specs.Regions as regions;
ghost use Rattle.topo_forms.specs.Valid.{needs_module};
ghost use Rattle.topo_forms.specs.Validity.{fault_of};
ghost use Rattle.topo_forms.specs.ViewOf.{view_of};
ghost use Rattle.topo_forms.specs.View as view;
ghost use Rattle.shard_route.specs.Copying.{IsTestOf};
ghost use Rattle.shard_route.specs.Code.Staged as code;
ghost use Rattle.shard_route.specs.Copies.{lacks_column as lacks};
ghost use Rattle.shard_route.specs.Sharding as spec;
ghost use Rattle.shard_route.specs.Sharding.{Answers};

use crate::copies::{copies_for, lacks_column};
use crate::fault::ShardFault;
use crate::gates::lacks_in_gates;
use crate::modules::sharded_modules;
use crate::names::{file_of, has_bad_names, numbers_to};
use crate::routing::sharded_topology;
use crate::sharded::{ShardFile, Sharded};
use bloom_forms::{Checked, Pred, Program};
use blz_value::{Items, Str};
use label_walk::cycle_of;
use shard_buckets::bucket_tests;
use std::alloc::{AllocError, Global};
use topo_forms::{Topology, Valid, ValidFault};
use topo_types::validate;

// What is asked for: the component of a topology, the column and the bounds by which it is split.
#[derive(Drop)]
struct Request<'a> {
    topology: &'a Topology,
    modules: &'a [Checked],
    component: &'a Str,
    column: &'a Str,
    bounds: &'a [i64],
}

// The files of the copies.
fn files_of(
    alloc: Global,
    name: &Str,
    numbers: &[u32],
    copies: &[Checked],
) -> Result<Items<ShardFile>, AllocError>
    requires { length copies.now ≡ length numbers.now }
    ensures { IfOk result (λ files. files ≡ spec.files_of name.now numbers.now copies.now) }
{
    let mut files = Vec::new(alloc);
    for (place, number) in numbers.iter().enumerate() {
        let name = file_of(alloc, name, *number)?;
        let module = copies[place].copy(alloc)?;
        files.push(ShardFile { name, module })?;
    }
    Ok(Items::from_vec(files))
}

// Nothing where the topology has no fault, else its first.
fn faultless(alloc: Global, topology: &Topology, modules: &[Checked]) -> Result<(), ShardFault>
    requires each { length modules.now ≡ length (filter_map needs_module topology.now.components) }
    requires allowed { IsAllowed topology.now }
    ensures { code.Passes topology.now modules.now result }
{
    match validate(alloc, topology, modules) {
        Ok(_) => Ok(()),
        Err(ValidFault::Bad(fault)) => Err(ShardFault::Topology(fault)),
        Err(ValidFault::NoMemory) => Err(ShardFault::NoMemory),
    }
}

// The copies in their topology, or the first of the faults Names and Topology.
fn with_copies(
    alloc: Global,
    request: &Request<'_>,
    numbers: &[u32],
    copies: &[Checked],
) -> Result<Sharded, ShardFault>
    requires given { code.IsGiven request.now.topology.now request.now.modules.now }
    requires numbers { length copies.now ≡ length numbers.now }
    requires small { (i : ℕ) → Has i numbers.now → i < 10 }
    ensures writable { IfOk result (λ sharded. code.IsWritable sharded.topology) }
    ensures answer { Answers (spec.with_copies request.now.topology.now request.now.modules.now request.now.component.now numbers.now copies.now) result }
{
    let name = request.component;
    let components = request.topology.components.as_slice();
    let topology = sharded_topology(alloc, request.topology, name, numbers)?;
    let streams = topology.streams.as_slice();
    if has_bad_names(alloc, components, streams, name, numbers)? {
        return Err(ShardFault::Names);
    }
    let modules = sharded_modules(alloc, name, copies, components, request.modules)?;
    faultless(alloc, &topology, &modules)?;
    let files = files_of(alloc, name, numbers, copies)?;
    Ok(Sharded { topology, files })
}

// The copies for the buckets with these tests, or the first of the faults from TooDeep on.
fn with_tests(
    alloc: Global,
    request: &Request<'_>,
    checked: &Checked,
    tests: &[Pred],
) -> Result<Sharded, ShardFault>
    requires given { code.IsGiven request.now.topology.now request.now.modules.now }
    requires ports { lacks request.now.column.now checked.now.form ≡ false }
    requires tests { (test : Formula) → Has test (map formula_of tests.now) → IsTestOf request.now.column.now test }
    requires few { length tests.now ≤ 8 }
    ensures writable { IfOk result (λ sharded. code.IsWritable sharded.topology) }
    ensures answer { Answers (spec.with_tests request.now.topology.now request.now.modules.now request.now.component.now checked.now (map formula_of tests.now)) result }
{
    let copies = copies_for(alloc, checked, request.column, tests)?;
    let numbers = numbers_to(alloc, tests.len())?;
    with_copies(alloc, request, &numbers, copies.as_slice())
}

fn is_in_cycle(valid: &Valid, number: u32) -> bool
    requires { number < length valid.now.view.components }
    ensures { result ≡ regions.is_in_cycle valid.now.view number }
{
    match cycle_of(valid, number) {
        Some(_) => true,
        None => false,
    }
}

// The copies of a component that runs this module, or the first of the faults from InCycle on.
fn with_module(
    alloc: Global,
    request: &Request<'_>,
    valid: &Valid,
    number: u32,
    program: &Program,
    checked: &Checked,
) -> Result<Sharded, ShardFault>
    requires given { code.IsGiven request.now.topology.now request.now.modules.now }
    requires view { valid.now.view ≡ view_of request.now.topology.now request.now.modules.now }
    requires number { number < length valid.now.view.components }
    requires program { program.now ≡ Module checked.now }
    requires few { length request.now.bounds.now ≤ 7 }
    ensures writable { IfOk result (λ sharded. code.IsWritable sharded.topology) }
    ensures answer { Answers (spec.with_module request.now.topology.now request.now.modules.now (record { component = request.now.component.now; column = request.now.column.now; bounds = request.now.bounds.now }) number checked.now) result }
{
    if is_in_cycle(valid, number) {
        return Err(ShardFault::InCycle);
    }
    if lacks_column(checked, request.column) {
        return Err(ShardFault::NoColumn);
    }
    if lacks_in_gates(alloc, valid, program, request.column)? {
        return Err(ShardFault::NotInGate);
    }
    let tests = bucket_tests(alloc, request.column, request.bounds)?;
    with_tests(alloc, request, checked, &tests)
}

// The copies of a component with this number, or the first of the faults from NoModule on.
fn with_program(
    alloc: Global,
    request: &Request<'_>,
    valid: &Valid,
    number: u32,
) -> Result<Sharded, ShardFault>
    requires given { code.IsGiven request.now.topology.now request.now.modules.now }
    requires view { valid.now.view ≡ view_of request.now.topology.now request.now.modules.now }
    requires number { number < length valid.now.view.components }
    requires few { length request.now.bounds.now ≤ 7 }
    ensures writable { IfOk result (λ sharded. code.IsWritable sharded.topology) }
    ensures answer { Answers (spec.with_program request.now.topology.now request.now.modules.now (record { component = request.now.component.now; column = request.now.column.now; bounds = request.now.bounds.now }) number (view.program_of valid.now.view number)) result }
{
    match valid.program(number) {
        Some(program) => match program {
            Program::Module(checked) => {
                with_module(alloc, request, valid, number, program, checked)
            }
            Program::Split { .. } | Program::Latest { .. } | Program::Number { .. } => {
                Err(ShardFault::NoModule)
            }
        },
        None => Err(ShardFault::NoModule),
    }
}

// The copies of the component, or the first fault.
fn with_valid(alloc: Global, request: &Request<'_>, valid: &Valid) -> Result<Sharded, ShardFault>
    requires given { code.IsGiven request.now.topology.now request.now.modules.now }
    requires view { valid.now.view ≡ view_of request.now.topology.now request.now.modules.now }
    requires few { length request.now.bounds.now ≤ 7 }
    ensures writable { IfOk result (λ sharded. code.IsWritable sharded.topology) }
    ensures answer { Answers (spec.sharded request.now.topology.now request.now.modules.now (record { component = request.now.component.now; column = request.now.column.now; bounds = request.now.bounds.now })) result }
{
    match valid.find_component(request.component) {
        Some(number) => with_program(alloc, request, valid, number),
        None => Err(ShardFault::NoComponent),
    }
}

/// The component as copies, each of which works on one bucket of the column, in the topology where
/// they stand in its place, with the modules of the copies; or the first of the faults that holds, in
/// their order.
///
/// Copy i, counted from 1, is named `COMPONENT_i` and runs the module in `COMPONENT_i.bloom`.
/// A stream of the component becomes one of each copy, `STREAM_i`, and an end at the component one at
/// each copy.
pub fn shard(
    alloc: Global,
    topology: &Topology,
    modules: &[Checked],
    component: &Str,
    column: &Str,
    bounds: &[i64],
) -> Result<Sharded, ShardFault>
    requires each { length modules.now ≡ length (filter_map needs_module topology.now.components) }
    requires allowed { IsAllowed topology.now }
    requires accepted { fault_of topology.now modules.now ≡ None }
    requires some { 1 ≤ length bounds.now }
    requires few { length bounds.now ≤ 7 }
    ensures answer { Answers (spec.sharded topology.now modules.now (record { component = component.now; column = column.now; bounds = bounds.now })) result }
    ensures allowed { IfOk result (λ sharded. IsAllowed sharded.topology) }
    ensures format { IfOk result (λ sharded. sharded.topology.format ≡ 2) }
{
    let request = Request {
        topology,
        modules,
        component,
        column,
        bounds,
    };
    match validate(alloc, topology, modules) {
        Ok(valid) => with_valid(alloc, &request, &valid),
        Err(_) => Err(ShardFault::NoMemory),
    }
}
