//! A topology with its modules, validated.
ghost use Rattle.std.specs.Prelude.{◌≡◌, IfOk, length};
ghost use Rattle.std.specs.List.{filter_map};
ghost use Rattle.topo_forms.specs.Allowed.{IsAllowed};
ghost use Rattle.topo_forms.specs.Valid.{needs_module};
ghost use Rattle.topo_forms.specs.Validity.{fault_of};
ghost use Rattle.command_checks.specs.Checks as check;
ghost use Rattle.command_checks.specs.Found.{HasModules, found_shown};
ghost use Rattle.command_checks.specs.Code.Topologies as code;
ghost use Rattle.command_checks.specs.Ran.{Gives, Ran, RanAtOnce};
ghost use Rattle.command_checks.specs.Ends.{files_states, source};

use crate::module_file::module_files;
use crate::stop::{Stop, refused};
use crate::topology_file::topology_file;
use bloom_forms::Checked;
use blz_outside::Files;
use report_lines::Refusal;
use std::alloc::Global;
use topo_forms::{Topology, Valid, ValidFault};
use topo_types::validate;

/// A valid topology, and the modules that it names, in written order.
#[derive(Drop)]
pub struct WithModules {
    pub valid: Valid,
    pub modules: Vec<Checked>,
}

// The topology, where it is valid with these modules.
fn validated(alloc: Global, topology: &Topology, modules: &[Checked]) -> Result<Valid, Stop>
    requires each { length modules.now ≡ length (filter_map needs_module topology.now.components) }
    requires allowed { IsAllowed topology.now }
    ensures { Gives (λ valid. valid) result (check.valid_with topology.now modules.now (fault_of topology.now modules.now)) }
{
    match validate(alloc, topology, modules) {
        Ok(valid) => Ok(valid),
        Err(ValidFault::Bad(fault)) => Err(refused(alloc, &Refusal::Topology(fault))),
        Err(ValidFault::NoMemory) => Err(Stop::NoMemory),
    }
}

// The topology with its modules, where it is valid with them.
fn found_with(
    alloc: Global,
    topology: &Topology,
    modules: Vec<Checked>,
) -> Result<WithModules, Stop>
    requires each { length modules.items ≡ length (filter_map needs_module topology.now.components) }
    requires allowed { IsAllowed topology.now }
    ensures ran { RanAtOnce found_shown result (code.from_modules topology.now modules.items) }
    ensures modules { IfOk result (λ found. HasModules (found_shown found)) }
{
    let valid = validated(alloc, topology, &modules)?;
    Ok(WithModules { valid, modules })
}

// The topology with the modules that it names, each in a file of its own.
fn modules_found<F: Files>(
    alloc: Global,
    topology: &Topology,
    files: &mut F,
) -> Result<WithModules, Stop>
    requires { IsAllowed topology.now }
    ensures ran { Ran found_shown
        (files_states (source (F.held files.old) (F.steady files.old) (F.faults files.old))
        (source (F.held files.new) (F.steady files.new) (F.faults files.new)))
        result (code.from_topology topology.now) }
    ensures modules { IfOk result (λ found. HasModules (found_shown found)) }
{
    let modules = module_files(alloc, topology.components.as_slice(), files)?;
    found_with(alloc, topology, modules)
}

/// The topology in the file of this name, and the modules that it names, each in a file of its own.
pub fn with_modules<F: Files>(alloc: Global, name: &str, files: &mut F) -> Result<WithModules, Stop>
    ensures ran { Ran found_shown
        (files_states (source (F.held files.old) (F.steady files.old) (F.faults files.old))
        (source (F.held files.new) (F.steady files.new) (F.faults files.new)))
        result (check.with_modules name.now) }
    ensures modules { IfOk result (λ found. HasModules (found_shown found)) }
{
    let topology = topology_file(alloc, name, files)?;
    modules_found(alloc, &topology, files)
}

/// The same for a command that needs no module.
pub fn valid_topology<F: Files>(alloc: Global, name: &str, files: &mut F) -> Result<Valid, Stop>
    ensures { Ran (λ valid. valid)
        (files_states (source (F.held files.old) (F.steady files.old) (F.faults files.old))
        (source (F.held files.new) (F.steady files.new) (F.faults files.new)))
        result (check.valid_topology name.now) }
{
    let found = with_modules(alloc, name, files)?;
    Ok(found.valid)
}
