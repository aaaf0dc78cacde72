//! The modules of a topology, each in a file of its own.
ghost use Rattle.std.specs.Prelude.{◌≡◌, ◌≤◌, [], ◌∷◌, ◌++◌, length, OnOk};
ghost use Rattle.bloom_forms.specs.FirstFault.{first_fault};
ghost use Rattle.bloom_forms.specs.Form.{form_of};
ghost use Rattle.bloom_forms.specs.Reserved.{HasOwnNames};
ghost use Rattle.bloom_parse.specs.Reading.{reading_of};
ghost use Rattle.command_checks.specs.Checks as check;
ghost use Rattle.command_checks.specs.Ran.{Gives, IsRefused, Ran};
ghost use Rattle.command_checks.specs.Ends.{files_states, source};
ghost use Rattle.report_lines.specs.Refusals.{refusal_line};
ghost use Rattle.report_lines.specs.declared.refusal.Refusal.TheVariants as refusals;
ghost use Rattle.std.specs.List.{filter_map};
ghost use Rattle.topo_forms.specs.Valid.{needs_module};

use crate::file::read_file;
use crate::stop::{Stop, refused};
use bloom_ast::check;
use bloom_forms::{CheckFault, Checked, Module, ModuleFault};
use bloom_parse::{ParseFault, TextFault, parse};
use blz_outside::Files;
use blz_value::Str;
use report_lines::Refusal;
use std::alloc::{AllocError, Global};
use topo_forms::{Body, ComponentEntry};

/// The most bytes of a module file.
pub const MODULE_LIMIT: usize = 65_536;

// The stop at a module that has this fault, in the file of this name.
fn with_fault(alloc: Global, name: &str, fault: ModuleFault) -> Stop
    ensures { IsRefused (refusal_line (refusals.Module name.now fault)) result }
{
    match Str::from_text(alloc, name) {
        Ok(file) => refused(alloc, &Refusal::Module { file, fault }),
        Err(_) => Stop::NoMemory,
    }
}

// The stop at a text that is no module, in the file of this name.
fn without_module(alloc: Global, name: &str, fault: &TextFault) -> Stop
    ensures { IsRefused (refusal_line (refusals.ModuleText name.now fault.now.line fault.now.column)) result }
{
    let (line, column) = (fault.line, fault.column);
    match Str::from_text(alloc, name) {
        Ok(file) => refused(alloc, &Refusal::ModuleText { file, line, column }),
        Err(_) => Stop::NoMemory,
    }
}

// The module of the file of this name, checked.
fn checked_module(alloc: Global, name: &str, module: &Module) -> Result<Checked, Stop>
    requires { HasOwnNames (form_of «module».now) }
    ensures { Gives (λ checked. checked) result (check.faultless name.now (form_of «module».now) (first_fault (form_of «module».now))) }
{
    match check(alloc, module) {
        Ok(checked) => Ok(checked),
        Err(CheckFault::Bad(fault)) => Err(with_fault(alloc, name, fault)),
        Err(CheckFault::NoMemory) => Err(Stop::NoMemory),
    }
}

// The module whose text these bytes are.
fn module_in(alloc: Global, name: &str, bytes: &[u8]) -> Result<Checked, Stop>
    requires { length bytes.now ≤ MODULE_LIMIT }
    ensures { Gives (λ checked. checked) result (check.module_read name.now (reading_of bytes.now)) }
{
    match parse(alloc, bytes) {
        Ok(module) => checked_module(alloc, name, &module),
        Err(ParseFault::Text(fault)) => Err(without_module(alloc, name, &fault)),
        Err(ParseFault::NoMemory) => Err(Stop::NoMemory),
    }
}

// The module in the file of this name.
fn module_file<F: Files>(alloc: Global, name: &str, files: &mut F) -> Result<Checked, Stop>
    ensures { Ran (λ checked. checked)
        (files_states (source (F.held files.old) (F.steady files.old) (F.faults files.old))
        (source (F.held files.new) (F.steady files.new) (F.faults files.new)))
        result (check.module_file name.now) }
{
    let bytes = read_file(alloc, name, MODULE_LIMIT, files)?;
    module_in(alloc, name, &bytes)
}

fn add(modules: &mut Vec<Checked>, one: Checked) -> Result<(), AllocError>
    ensures { OnOk result (modules.new.items ≡ modules.old.items ++ one ∷ []) }
{
    modules.push(one)?;
    Ok(())
}

/// The modules of the components that have one, in written order, each read from its file and checked.
pub fn module_files<F: Files>(
    alloc: Global,
    components: &[ComponentEntry],
    files: &mut F,
) -> Result<Vec<Checked>, Stop>
    ensures { Ran (λ modules. modules.items)
        (files_states (source (F.held files.old) (F.steady files.old) (F.faults files.old))
        (source (F.held files.new) (F.steady files.new) (F.faults files.new)))
        result (check.each check.module_file (filter_map needs_module components.now)) }
{
    let mut modules = Vec::new(alloc);
    for component in components {
        if let Body::Module(file) = &component.body {
            let read = module_file(alloc, file.as_str(), files)?;
            add(&mut modules, read)?;
        }
    }
    Ok(modules)
}
