//! Values that are lent.
ghost use Rattle.std.specs.Prelude.{◌≡◌, IfOk};
ghost use Rattle.std.proofs.Common.{rules};
ghost use Rattle.std.specs.Cmp.{partial_equiv_from_equiv, partial_order_from_total, eq_by_cmp_equiv, on_total};
ghost use Rattle.std.specs.Cmp.Rules.{comparing};
ghost use Rattle.std.specs.Ordering.{as_partial_cmp, eq_by_cmp, on};
ghost use Rattle.blz_value.specs.Value.{value_cmp};
ghost use Rattle.blz_value.specs.ValueOrder.{value_cmp_total};
ghost use Rattle.blz_value.specs.Test.{cell};
ghost use Rattle.blz_set.specs.Code.ValueRef.{value_of};

use blz_value::{Record, Str, Value};
use std::alloc::{AllocError, Global};
use std::cmp::Ordering;

/// A value that is lent: its number itself, so that comparing it reads nothing else, or its text.
#[derive(Clone, Copy)]
pub(crate) enum ValueRef<'a> {
    Number(i64),
    Letters(&'a str),
}

impl<'a> ValueRef<'a> {
    /// The value in a column of a row, and the number 0 past the end.
    pub(crate) fn at(row: &'a Record, column: u32) -> ValueRef<'a>
        ensures { value_of result ≡ cell row.now column }
    {
        match row.values().get(column as usize) {
            Some(Value::Int(number)) => ValueRef::Number(*number),
            Some(Value::Text(text)) => ValueRef::Letters(text.as_str()),
            None => ValueRef::Number(0),
        }
    }

    /// A copy of the value.
    pub(crate) fn to_value(&self, alloc: Global) -> Result<Value, AllocError>
        ensures { IfOk result (λ value. value ≡ value_of self.now) }
    {
        match self {
            ValueRef::Number(number) => Ok(Value::Int(*number)),
            ValueRef::Letters(text) => Ok(Value::Text(Str::from_text(alloc, *text)?)),
        }
    }
}

impl PartialEq for ValueRef<'_> {
    ghost eq = { eq_by_cmp (on value_of value_cmp) };

    ghost laws = { partial_equiv_from_equiv (eq_by_cmp_equiv (on_total value_of value_cmp_total)) };

    fn eq(&self, other: &Self) -> bool {
        self.cmp(other).is_eq()
    }
}

impl Eq for ValueRef<'_> {
    ghost laws = { eq_by_cmp_equiv (on_total value_of value_cmp_total) };
}

impl Ord for ValueRef<'_> {
    ghost cmp = { on value_of value_cmp };

    ghost total = { on_total value_of value_cmp_total };

    ghost matches_partial_cmp = { Prim.search (comparing, rules) };

    ghost matches_eq = { Prim.search (comparing, rules) };

    fn cmp(&self, other: &Self) -> Ordering {
        match (self, other) {
            (ValueRef::Number(m), ValueRef::Number(n)) => m.cmp(n),
            (ValueRef::Number(_), ValueRef::Letters(_)) => Ordering::Less,
            (ValueRef::Letters(_), ValueRef::Number(_)) => Ordering::Greater,
            (ValueRef::Letters(s), ValueRef::Letters(t)) => s.cmp(t),
        }
    }
}

impl PartialOrd for ValueRef<'_> {
    ghost partial_cmp = { as_partial_cmp (on value_of value_cmp) };

    ghost laws = { partial_order_from_total (on_total value_of value_cmp_total) };

    fn partial_cmp(&self, other: &Self) -> Option<Ordering> {
        Some(self.cmp(other))
    }
}
