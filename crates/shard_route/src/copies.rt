//! The copies of a module, one for each bucket.
ghost use Rattle.std.specs.Prelude.{◌≡◌, false, map};
ghost use Rattle.blz_value.specs.Members.{Has};
ghost use Rattle.bloom_forms.specs.Fits.{has_name};
ghost use Rattle.bloom_forms.specs.Form.{formula_of};
ghost use Rattle.bloom_forms.specs.Query.{Formula};
ghost use Rattle.shard_route.specs.Copying as code;
ghost use Rattle.shard_route.specs.Copying.{GivesCopies, GivesCopy, IsTestOf};
ghost use Rattle.shard_route.specs.Copies as spec;

use crate::expressions::copied_module;
use crate::fault::ShardFault;
use bloom_ast::check;
use bloom_forms::{CheckFault, Checked, Collection, Kind, Pred};
use blz_value::{Items, Str};
use std::alloc::Global;

fn has_column(columns: &[Str], column: &Str) -> bool
    ensures { result ≡ has_name columns.now column.now }
{
    columns.iter().any(|held| held.equals(column))
}

// Whether a collection is a port without the column.
fn is_port_without(collection: &Collection, column: &Str) -> bool
    ensures { result ≡ spec.is_port_without column.now collection.now }
{
    match collection.kind {
        Kind::Input => !has_column(collection.columns.as_slice(), column),
        Kind::Output | Kind::Table | Kind::Scratch => false,
    }
}

/// Whether a port of the module has no column of this name.
pub fn lacks_column(checked: &Checked, column: &Str) -> bool
    ensures { result ≡ spec.lacks_column column.now checked.now.form }
{
    let collections = checked.module().collections.as_slice();
    collections.iter().any(|c| is_port_without(c, column))
}

// What a fault of a copy says: no other than that it is too deep.
fn refused(fault: CheckFault) -> ShardFault
    ensures { result ≡ code.refused fault }
{
    match fault {
        CheckFault::Bad(_) => ShardFault::TooDeep,
        CheckFault::NoMemory => ShardFault::NoMemory,
    }
}

// The copy of the module for the bucket with this test, as it is checked. TooDeep comes exactly where
// a rule of it has too many open levels.
fn copy_for(
    alloc: Global,
    checked: &Checked,
    column: &Str,
    test: &Pred,
) -> Result<Checked, ShardFault>
    requires ports { spec.lacks_column column.now checked.now.form ≡ false }
    requires test { IsTestOf column.now (formula_of test.now) }
    ensures { GivesCopy checked.now (formula_of test.now) result }
{
    let copied = copied_module(alloc, checked.module(), test)?;
    match check(alloc, &copied) {
        Ok(copy) => Ok(copy),
        Err(fault) => Err(refused(fault)),
    }
}

/// The copies of the module for the buckets with these tests. TooDeep comes exactly where a rule of
/// some copy has too many open levels.
pub fn copies_for(
    alloc: Global,
    checked: &Checked,
    column: &Str,
    tests: &[Pred],
) -> Result<Items<Checked>, ShardFault>
    requires ports { spec.lacks_column column.now checked.now.form ≡ false }
    requires tests { (test : Formula) → Has test (map formula_of tests.now) → IsTestOf column.now test }
    ensures { GivesCopies checked.now (map formula_of tests.now) result }
{
    let mut copies = Vec::new(alloc);
    for test in tests {
        copies.push(copy_for(alloc, checked, column, test)?)?;
    }
    Ok(Items::from_vec(copies))
}
