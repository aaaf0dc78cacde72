//! What is shown of the roots of a module's outputs.
ghost use Rattle.std.specs.Prelude.{◌<◌, ◌-◌, ◌^◌, IfOk, length};
ghost use Rattle.bloom_forms.specs.Program.{IsStock, output_columns};

use crate::checked::checked_of;
use crate::texts::Text;
use anyhow::{Result, ensure};
use bloom_ast::{Checked, Collection, Kind, Program};
use fd_closure::AttrNames;
use path_annotate::roots;
use std::alloc::Global;

/// A line for each output of the module of a text, with the root of each of its columns. The attributes are
/// the names of its ports' columns.
pub(crate) fn roots_shown(alloc: Global, text: &[u8]) -> Result<Vec<u8>>
    requires { length text.now < 2 ^ 32 - 1 }
{
    let checked = checked_of(alloc, text)?;
    let names = port_names(alloc, &checked)?;
    program_shown(alloc, &Program::Module(checked), &names)
}

// The same of its program.
fn program_shown(alloc: Global, program: &Program, names: &AttrNames) -> Result<Vec<u8>>
    requires { IsStock program.now }
{
    let mut shown = Text::new(alloc);
    for output in 0..program.output_count() {
        output_shown(alloc, program, names, output, &mut shown)?;
    }
    shown.into_bytes()
}

// The names of the columns of a module's ports, each once.
fn port_names(alloc: Global, checked: &Checked) -> Result<AttrNames> {
    let mut names = AttrNames::new(alloc);
    for collection in checked.module().collections.as_slice() {
        if collection.kind == Kind::Input {
            add_columns(collection, &mut names)?;
        }
    }
    Ok(names)
}

fn add_columns(collection: &Collection, names: &mut AttrNames) -> Result<()> {
    for column in collection.columns.as_slice() {
        let _ = names.add(column)?;
    }
    Ok(())
}

// Adds a line with the root of each column of an output.
fn output_shown(
    alloc: Global,
    program: &Program,
    names: &AttrNames,
    output: u32,
    shown: &mut Text,
) -> Result<()>
    requires stock { IsStock program.now }
    requires within { output < length (output_columns program.now) }
{
    let found = roots(alloc, program, names, output)?;
    ensure!(
        found.len() == program.output_width(output) as usize,
        "each column of the output has its root",
    );
    line_shown(names, &found, shown);
    Ok(())
}

// Adds a line with some roots.
fn line_shown(names: &AttrNames, found: &[Option<u8>], shown: &mut Text) {
    shown.add(b"roots");
    for root in found {
        shown.add(b" ");
        shown.add(name_of(names, *root).as_bytes());
    }
    shown.add(b"\n");
}

// The name of a root, or that there is none.
fn name_of(names: &AttrNames, root: Option<u8>) -> &str {
    match root {
        Some(number) => match names.names().get(number as usize) {
            Some(name) => name.as_str(),
            None => "unknown",
        },
        None => "none",
    }
}
