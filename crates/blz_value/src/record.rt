//! A record, seen as the list of its values.
ghost use Rattle.std.specs.Prelude.{◌≡◌, IfOk};
ghost use Rattle.std.proofs.Common.{rules, ap};
ghost use Rattle.std.proofs.lemmas.Map.Views.{tells_apart};
ghost use Rattle.std.specs.Cmp.{partial_equiv_from_equiv, partial_order_from_total, eq_by_cmp_equiv};
ghost use Rattle.std.specs.Cmp.Rules.{comparing};
ghost use Rattle.std.specs.Ordering.{as_partial_cmp, eq_by_cmp};
ghost use Rattle.blz_value.specs.Record.{record_cmp};
ghost use Rattle.blz_value.specs.RecordOrder.{record_cmp_total, record_cmp_exact};
ghost use Rattle.blz_value.specs.Hash.{row_hash, row_writes};

use crate::faithful::copies_of;
use crate::value::Value;
use std::alloc::AllocError;
use std::cmp::Ordering;
use std::hash::{DefaultHasher, Hash, Hasher};
use std::marker::Model;

/// A record: a list of values, one a column. It is hashed once, when it is made.
#[derive(Debug, Drop)]
pub struct Record {
    values: Vec<Value>,
    hash: u64,
}

impl Model for Record {
    ghost use Rattle.std.specs.Prelude.{◌≡◌, List};
    ghost use Rattle.blz_value.specs.declared.value.Value.{Value as RecordValue};
    ghost use Rattle.blz_value.specs.Hash.{row_hash};

    ghost Value = { List RecordValue };

    ghost view = { λ r. r.values.items };

    ghost invariant = { λ r. r.hash ≡ row_hash r.values.items };
}

// The SipHash of some values.
fn hash_of(values: &[Value]) -> u64
    ensures { result ≡ row_hash values.now }
{
    let mut state = DefaultHasher::new();
    Value::hash_slice(values, &mut state);
    state.finish()
}

impl Record {
    /// The record of these values, in their order.
    pub fn from_values(values: Vec<Value>) -> Record
        ensures { result ≡ values.items }
    {
        let hash = hash_of(&values);
        Record { values, hash }
    }

    /// The values, column by column.
    pub fn values(&self) -> &[Value]
        ensures { result.now ≡ self.now }
    {
        self.values.as_slice()
    }

    /// An equal record of its own.
    pub fn copy(&self) -> Result<Record, AllocError>
        ensures { IfOk result (λ r. r ≡ self.now) }
    {
        self.clone()
    }
}

impl Clone for Record {
    ghost is_clone = { λ one clone. clone ≡ one };

    fn clone(&self) -> Result<Record, AllocError> {
        let values = copies_of(*self.values.allocator(), &self.values)?;
        Ok(Record {
            values,
            hash: self.hash,
        })
    }
}

impl PartialEq for Record {
    ghost eq = { eq_by_cmp record_cmp };

    ghost laws = { partial_equiv_from_equiv (eq_by_cmp_equiv record_cmp_total) };

    fn eq(&self, other: &Record) -> bool {
        compare(self, other).is_eq()
    }
}

impl Eq for Record {
    ghost laws = { eq_by_cmp_equiv record_cmp_total };
}

impl Ord for Record {
    ghost cmp = { record_cmp };

    ghost total = { record_cmp_total };

    ghost matches_partial_cmp = { Prim.search (comparing, rules) };

    ghost matches_eq = { Prim.search (comparing, rules) };

    fn cmp(&self, other: &Record) -> Ordering {
        compare(self, other)
    }
}

impl PartialOrd for Record {
    ghost partial_cmp = { as_partial_cmp record_cmp };

    ghost laws = { partial_order_from_total record_cmp_total };

    fn partial_cmp(&self, other: &Record) -> Option<Ordering> {
        Some(compare(self, other))
    }
}

impl Hash for Record {
    ghost hash_input = { row_writes };

    ghost respects_eq = { λ x y same. ap row_writes (tells_apart record_cmp_exact x y same) };

    fn hash<H: Hasher>(&self, state: &mut H) {
        state.write_u64(self.hash);
    }
}

/// The record order: the first unequal value decides, and a prefix comes first.
pub fn compare(a: &Record, b: &Record) -> Ordering
    ensures { result ≡ record_cmp a.now b.now }
{
    a.values().cmp(b.values())
}
