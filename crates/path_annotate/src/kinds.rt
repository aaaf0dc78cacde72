//! The numbers of the collections of a kind.
ghost use Rattle.std.specs.Prelude.{◌≡◌, ◌≤◌, ◌<◌, length, IfOk};
ghost use Rattle.bloom_forms.specs.declared.module.Kind.TheVariants.{Output};
ghost use Rattle.bloom_forms.specs.Checks.{IsChecked};
ghost use Rattle.bloom_forms.specs.Program.{columns_of_kind};
ghost use Rattle.bloom_forms.specs.KindNumbers as spec;

use bloom_forms::{Checked, Collection, Kind};
use path_facts::has_kind;
use std::alloc::{AllocError, Global};

// The numbers of the collections of a kind, in declared order.
fn numbers_of_kind(
    alloc: Global,
    collections: &[Collection],
    kind: Kind,
) -> Result<Vec<u32>, AllocError>
    requires { length collections.now ≤ 32 }
    ensures { IfOk result (λ numbers. numbers.items ≡ spec.numbers_of_kind kind collections.now) }
{
    let mut numbers = Vec::new(alloc);
    for (i, collection) in collections.iter().enumerate() {
        if has_kind(collection, kind) {
            numbers.push(i as u32)?;
        }
    }
    Ok(numbers)
}

/// The numbers of a module's collections of a kind, in declared order.
#[tactic(auto, using(bloom_forms::proofs::ByNumber::NumbersLemmas::length_numbers_of_kind))]
pub(crate) fn module_numbers(
    alloc: Global,
    checked: &Checked,
    kind: Kind,
) -> Result<Vec<u32>, AllocError>
    ensures numbers { IfOk result (λ numbers. numbers.items ≡ spec.numbers_of_kind kind checked.now.form.collections) }
    ensures checked { IsChecked checked.now.form checked.now.heads }
    ensures count { IfOk result (λ numbers. length numbers.items ≡ length (columns_of_kind kind checked.now.form.collections)) }
{
    numbers_of_kind(alloc, checked.module().collections.as_slice(), kind)
}

/// The number of the collection of an output.
pub(crate) fn output_number(
    alloc: Global,
    checked: &Checked,
    output: u32,
) -> Result<u32, AllocError>
    requires { output < length (columns_of_kind Output checked.now.form.collections) }
    ensures checked { IsChecked checked.now.form checked.now.heads }
    ensures number { IfOk result (λ number. number ≡ spec.number_in_kind Output checked.now.form.collections output) }
{
    let outputs = module_numbers(alloc, checked, Kind::Output)?;
    Ok(outputs[output as usize])
}
