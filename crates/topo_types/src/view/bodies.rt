//! Bodies: the programs that they are, and the ports and outputs of a program.
ghost use Rattle.std.specs.Prelude.{◌≡◌, ◌==◌, ◌++◌, ◌∷◌, [], codes, map, IfOk};
ghost use Rattle.std.specs.List.{list_any, remove};
ghost use Rattle.bloom_forms.specs.Kinds.{same_kind, of_kind};
ghost use Rattle.bloom_forms.specs.Program.{key_columns};
ghost use Rattle.blz_value.specs.Names.{place_of};
ghost use Rattle.topo_types.specs.Code.Chosen as chosen;
ghost use Rattle.topo_forms.specs.Sites as spec;

use bloom_forms::{Checked, Collection, Kind, Program};
use blz_value::{Items, Str, copy_all};
use std::alloc::{AllocError, Global};
use topo_forms::{Body, Side, Stock};

// ---- programs

fn column_place(columns: &[Str], name: &Str) -> Option<usize>
    ensures { result ≡ place_of columns.now name.now }
{
    columns.iter().position(|column| column.equals(name))
}

// The number of a column; past the end where the name is none. A list of 2^32 columns counts as
// want of memory.
fn column_number(columns: &[Str], name: &Str) -> Result<u32, AllocError>
    ensures { IfOk result (λ number. number ≡ spec.column_number columns.now name.now) }
{
    let number = column_place(columns, name).unwrap_or(columns.len());
    if number > u32::MAX as usize {
        return Err(AllocError);
    }
    Ok(number as u32)
}

fn column_numbers(alloc: Global, columns: &[Str], names: &[Str]) -> Result<Vec<u32>, AllocError>
    ensures { IfOk result (λ numbers. numbers.items ≡ map (spec.column_number columns.now) names.now) }
{
    let mut numbers = Vec::new(alloc);
    for name in names {
        numbers.push(column_number(columns, name)?)?;
    }
    Ok(numbers)
}

fn stock_program(alloc: Global, stock: &Stock) -> Result<Program, AllocError>
    ensures { IfOk result (λ program. program ≡ spec.stock_program stock.now) }
{
    match stock {
        Stock::Split { columns, split } => {
            let split = column_number(columns.as_slice(), split)?;
            let columns = copy_all(alloc, columns.as_slice())?;
            Ok(Program::Split { columns, split })
        }
        Stock::Latest { columns, keys } => {
            let keys = column_numbers(alloc, columns.as_slice(), keys.as_slice())?;
            let columns = copy_all(alloc, columns.as_slice())?;
            Ok(Program::Latest {
                columns,
                keys: Items::from_vec(keys),
            })
        }
        Stock::Number { columns } => {
            let columns = copy_all(alloc, columns.as_slice())?;
            Ok(Program::Number { columns })
        }
    }
}

fn first_module(alloc: Global, modules: &[Checked]) -> Result<Option<Program>, AllocError>
    ensures { IfOk result (λ program. program ≡ spec.program_in (Body.Module []) modules.now) }
{
    match modules.first() {
        Some(checked) => Ok(Some(Program::Module(checked.copy(alloc)?))),
        None => Ok(None),
    }
}

/// What a body runs, where the modules from its own on are these.
pub(crate) fn program_in(
    alloc: Global,
    body: &Body,
    modules: &[Checked],
) -> Result<Option<Program>, AllocError>
    ensures { IfOk result (λ program. program ≡ spec.program_in body.now modules.now) }
{
    match body {
        Body::Module(_) => first_module(alloc, modules),
        Body::Stock(stock) => Ok(Some(stock_program(alloc, stock)?)),
        Body::None => Ok(None),
    }
}

/// The modules after that of a body.
pub(crate) fn modules_after<'a>(body: &Body, modules: &'a [Checked]) -> &'a [Checked]
    ensures { result.now ≡ spec.modules_after body.now modules.now }
{
    match body {
        Body::Module(_) => match modules {
            [_, rest @ ..] => rest,
            [] => modules,
        },
        Body::Stock(_) | Body::None => modules,
    }
}

// ---- ports and outputs

fn side(alloc: Global, name: &str, columns: Items<Str>) -> Result<Side, AllocError>
    ensures { IfOk result (λ side. side ≡ spec.side name.now columns) }
{
    let name = Str::from_text(alloc, name)?;
    Ok(Side { name, columns })
}

fn has_kind(collection: &Collection, kind: Kind) -> bool
    ensures { result ≡ same_kind kind collection.now.kind }
{
    kind == collection.kind
}

fn collection_side(alloc: Global, collection: &Collection) -> Result<Side, AllocError>
    ensures { IfOk result (λ side. side ≡ spec.collection_side collection.now) }
{
    let name = collection.name.copy()?;
    let columns = copy_all(alloc, collection.columns.as_slice())?;
    Ok(Side { name, columns })
}

// The collections of a kind, by their names and columns.
fn sides_of_kind(
    alloc: Global,
    collections: &[Collection],
    kind: Kind,
) -> Result<Vec<Side>, AllocError>
    ensures { IfOk result (λ sides. sides.items ≡ map spec.collection_side (of_kind kind collections.now)) }
{
    let mut sides = Vec::new(alloc);
    for collection in collections {
        if has_kind(collection, kind) {
            sides.push(collection_side(alloc, collection)?)?;
        }
    }
    Ok(sides)
}

// Whether a column is a key.
fn is_key(keys: &[u32], column: usize) -> bool
    ensures { result ≡ list_any (λ key. key == column) keys.now }
{
    keys.iter().any(|key| *key as usize == column)
}

// The columns whose numbers are keys, by a walk over the columns.
fn columns_at_keys(alloc: Global, columns: &[Str], keys: &[u32]) -> Result<Items<Str>, AllocError>
    ensures { IfOk result (λ copies. copies ≡ chosen.with_keys keys.now columns.now) }
{
    let mut copies = Vec::new(alloc);
    for (i, column) in columns.iter().enumerate() {
        if is_key(keys, i) {
            copies.push(column.copy()?)?;
        }
    }
    Ok(Items::from_vec(copies))
}

// The key columns in their order among the columns.
fn columns_of_keys(alloc: Global, columns: &[Str], keys: &[u32]) -> Result<Items<Str>, AllocError>
    ensures { IfOk result (λ copies. copies ≡ key_columns columns.now keys.now) }
{
    columns_at_keys(alloc, columns, keys)
}

fn one_side(alloc: Global, name: &str, columns: Items<Str>) -> Result<Items<Side>, AllocError>
    ensures { IfOk result (λ sides. sides ≡ spec.side name.now columns ∷ []) }
{
    let mut sides = Vec::new(alloc);
    sides.push(side(alloc, name, columns)?)?;
    Ok(Items::from_vec(sides))
}

fn latest_ports(alloc: Global, columns: &[Str], keys: &[u32]) -> Result<Items<Side>, AllocError>
    ensures { IfOk result (λ sides. sides ≡ spec.side (codes "put") columns.now ∷ spec.side (codes "ask") (key_columns columns.now keys.now) ∷ []) }
{
    let asked = columns_of_keys(alloc, columns, keys)?;
    let mut sides = Vec::new(alloc);
    sides.push(side(alloc, "put", copy_all(alloc, columns)?)?)?;
    sides.push(side(alloc, "ask", asked)?)?;
    Ok(Items::from_vec(sides))
}

fn module_sides(alloc: Global, checked: &Checked, kind: Kind) -> Result<Items<Side>, AllocError>
    ensures { IfOk result (λ sides. sides ≡ map spec.collection_side (of_kind kind checked.now.form.collections)) }
{
    let collections = checked.module().collections.as_slice();
    Ok(Items::from_vec(sides_of_kind(alloc, collections, kind)?))
}

/// The ports of a program.
pub(crate) fn program_ports(alloc: Global, program: &Program) -> Result<Items<Side>, AllocError>
    ensures { IfOk result (λ ports. ports ≡ spec.program_ports program.now) }
{
    match program {
        Program::Module(checked) => module_sides(alloc, checked, Kind::Input),
        Program::Split { columns, .. } => {
            one_side(alloc, "in", copy_all(alloc, columns.as_slice())?)
        }
        Program::Latest { columns, keys } => {
            latest_ports(alloc, columns.as_slice(), keys.as_slice())
        }
        Program::Number { columns } => one_side(alloc, "in", copy_all(alloc, columns.as_slice())?),
    }
}

// The columns with other numbers, by a walk over the columns.
fn columns_apart(alloc: Global, columns: &[Str], number: u32) -> Result<Vec<Str>, AllocError>
    ensures { IfOk result (λ copies. copies.items ≡ chosen.without_number number columns.now) }
{
    let mut copies = Vec::new(alloc);
    for (i, column) in columns.iter().enumerate() {
        if i != number as usize {
            copies.push(column.copy()?)?;
        }
    }
    Ok(copies)
}

// Some columns without the one with a number.
fn columns_without(alloc: Global, columns: &[Str], number: u32) -> Result<Vec<Str>, AllocError>
    ensures { IfOk result (λ copies. copies.items ≡ remove columns.now number) }
{
    columns_apart(alloc, columns, number)
}

fn split_output(alloc: Global, columns: &[Str], split: u32) -> Result<Items<Str>, AllocError>
    ensures { IfOk result (λ out. out ≡ remove columns.now split ++ codes "at" ∷ codes "word" ∷ []) }
{
    let mut out = columns_without(alloc, columns, split)?;
    out.push(Str::from_text(alloc, "at")?)?;
    out.push(Str::from_text(alloc, "word")?)?;
    Ok(Items::from_vec(out))
}

fn number_output(alloc: Global, columns: &[Str]) -> Result<Items<Str>, AllocError>
    ensures { IfOk result (λ out. out ≡ columns.now ++ codes "n" ∷ []) }
{
    let mut out = Vec::new(alloc);
    for column in columns {
        out.push(column.copy()?)?;
    }
    out.push(Str::from_text(alloc, "n")?)?;
    Ok(Items::from_vec(out))
}

/// The outputs of a program.
pub(crate) fn program_outputs(alloc: Global, program: &Program) -> Result<Items<Side>, AllocError>
    ensures { IfOk result (λ outputs. outputs ≡ spec.program_outputs program.now) }
{
    match program {
        Program::Module(checked) => module_sides(alloc, checked, Kind::Output),
        Program::Split { columns, split } => {
            one_side(
                alloc,
                "out",
                split_output(alloc, columns.as_slice(), *split)?,
            )
        }
        Program::Latest { columns, .. } => {
            one_side(alloc, "out", copy_all(alloc, columns.as_slice())?)
        }
        Program::Number { columns } => {
            one_side(alloc, "out", number_output(alloc, columns.as_slice())?)
        }
    }
}
