//! A value of a record.
ghost use Rattle.std.specs.Prelude.{◌≡◌, IfOk};
ghost use Rattle.std.proofs.Common.{rules, ap};
ghost use Rattle.std.proofs.lemmas.Map.Views.{tells_apart};
ghost use Rattle.std.specs.Cmp.{partial_equiv_from_equiv, partial_order_from_total, eq_by_cmp_equiv};
ghost use Rattle.std.specs.Cmp.Rules.{comparing};
ghost use Rattle.std.specs.Ordering.{as_partial_cmp, eq_by_cmp};
ghost use Rattle.blz_value.specs.Value.{value_cmp};
ghost use Rattle.blz_value.specs.ValueOrder.{value_cmp_total, value_cmp_exact};
ghost use Rattle.blz_value.specs.Hash.{value_writes};

use crate::text::Str;
use std::alloc::AllocError;
use std::cmp::Ordering;
use std::hash::{Hash, Hasher};

/// What stands in a column of a record.
#[derive(Clone, Debug, Drop)]
pub enum Value {
    /// A whole number.
    Int(i64),
    /// A text.
    Text(Str),
}

impl Value {
    /// An equal value of its own.
    pub fn copy(&self) -> Result<Value, AllocError>
        ensures { IfOk result (λ v. v ≡ self.now) }
    {
        self.clone()
    }
}

impl PartialEq for Value {
    ghost eq = { eq_by_cmp value_cmp };

    ghost laws = { partial_equiv_from_equiv (eq_by_cmp_equiv value_cmp_total) };

    fn eq(&self, other: &Value) -> bool {
        compare_values(self, other).is_eq()
    }
}

impl Eq for Value {
    ghost laws = { eq_by_cmp_equiv value_cmp_total };
}

impl Ord for Value {
    ghost cmp = { value_cmp };

    ghost total = { value_cmp_total };

    ghost matches_partial_cmp = { Prim.search (comparing, rules) };

    ghost matches_eq = { Prim.search (comparing, rules) };

    fn cmp(&self, other: &Value) -> Ordering {
        compare_values(self, other)
    }
}

impl PartialOrd for Value {
    ghost partial_cmp = { as_partial_cmp value_cmp };

    ghost laws = { partial_order_from_total value_cmp_total };

    fn partial_cmp(&self, other: &Value) -> Option<Ordering> {
        Some(compare_values(self, other))
    }
}

impl Hash for Value {
    ghost hash_input = { value_writes };

    ghost respects_eq = { λ x y same. ap value_writes (tells_apart value_cmp_exact x y same) };

    fn hash<H: Hasher>(&self, state: &mut H) {
        match self {
            Value::Int(n) => {
                let bits = u128::from(n.cast_unsigned());
                state.write_u128(bits * 0x1_0000_0000_0000_0000 + 0xfe);
            }
            Value::Text(s) => s.hash(state),
        }
    }
}

/// The order of values: each number comes before each text, numbers go by size, texts by their bytes.
pub fn compare_values(a: &Value, b: &Value) -> Ordering
    ensures { result ≡ value_cmp a.now b.now }
{
    match (a, b) {
        (Value::Int(m), Value::Int(n)) => m.cmp(n),
        (Value::Int(_), Value::Text(_)) => Ordering::Less,
        (Value::Text(_), Value::Int(_)) => Ordering::Greater,
        (Value::Text(s), Value::Text(t)) => s.cmp(t),
    }
}
