//! Copies of tests.
ghost use Rattle.std.specs.Prelude.{◌≡◌, IfOk};
ghost use Rattle.bloom_index.specs.Code.Copies.{IsCopy};

use blz_value::{Operand, Test};
use std::alloc::{AllocError, Global};

fn copied_operand(operand: &Operand) -> Result<Operand, AllocError>
    ensures { IfOk result (λ copy. copy ≡ operand.now) }
{
    match operand {
        Operand::Column(column) => Ok(Operand::Column(*column)),
        Operand::Literal(value) => Ok(Operand::Literal(value.copy()?)),
    }
}

/// A test of its own that holds for the same records. It recurses as deep as the test.
pub(crate) fn copied_test(alloc: Global, test: &Test) -> Result<Test, AllocError>
    ensures { IfOk result (IsCopy test.now) }
{
    match test {
        Test::Compare { left, op, right } => Ok(Test::Compare {
            left: copied_operand(left)?,
            op: *op,
            right: copied_operand(right)?,
        }),
        Test::And(a, b) => {
            let a = Box::new(alloc, copied_test(alloc, a)?)?;
            let b = Box::new(alloc, copied_test(alloc, b)?)?;
            Ok(Test::And(a, b))
        }
        Test::Or(a, b) => {
            let a = Box::new(alloc, copied_test(alloc, a)?)?;
            let b = Box::new(alloc, copied_test(alloc, b)?)?;
            Ok(Test::Or(a, b))
        }
        Test::Not(a) => Ok(Test::Not(Box::new(alloc, copied_test(alloc, a)?)?)),
    }
}
