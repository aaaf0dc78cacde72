//! The module that a text is.
ghost use Rattle.std.specs.Prelude.{◌≡◌, ◌<◌, ◌-◌, ◌^◌, IfOk, length};
ghost use Rattle.bloom_forms.specs.Program.{IsStock, table_columns};
ghost use Rattle.bloom_parse.specs.Parsing.{IsTextOf};

use anyhow::{Result, ensure};
use bloom_ast::{Checked, Program, check};
use bloom_parse::parse;
use std::alloc::Global;

/// The module of a text, checked.
pub(crate) fn checked_of(alloc: Global, text: &[u8]) -> Result<Checked>
    requires { length text.now < 2 ^ 32 - 1 }
    ensures { IfOk result (λ checked. IsTextOf text.now checked.form) }
{
    let module = parse(alloc, text)?;
    Ok(check(alloc, &module)?)
}

/// The program of the module that a text is, which has so many tables.
pub(crate) fn program_of(alloc: Global, text: &[u8], count: u32) -> Result<Program>
    requires { length text.now < 2 ^ 32 - 1 }
    ensures stock { IfOk result IsStock }
    ensures tables { IfOk result (λ program. length (table_columns program) ≡ count) }
{
    let program = Program::Module(checked_of(alloc, text)?);
    ensure!(
        program.table_count() == count,
        "the module has so many tables"
    );
    Ok(program)
}
