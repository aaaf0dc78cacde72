//! The types of the calls that others make. Each is named here with exactly its own, so one that changes its form is
//! refused.

use blz_pool::{Id, Pool, PoolFault};
use blz_set::{RecordSet, SetFault};
use blz_value::{
    Agg, Record, Str, Test, Value, compare, compare_values, holds, write_escaped, write_record,
    write_value,
};
use fd_closure::{AttrNames, Attrs, Fd, NamesFault, closure, compatible};
use std::alloc::{AllocError, Global};
use std::cmp::Ordering;

// Of texts, values, records and tests.
fn values() {
    let _: fn(&Value) -> Result<Value, AllocError> = Value::copy;
    let _: fn(Vec<Value>) -> Record = Record::from_values;
    let _: fn(&Record) -> Result<Record, AllocError> = Record::copy;
    let _: fn(Global, &str) -> Result<Str, AllocError> = Str::from_text;
    let _: fn(&Str) -> Result<Str, AllocError> = Str::copy;
    let _: fn(&Record, &Record) -> Ordering = compare;
    let _: fn(&Value, &Value) -> Ordering = compare_values;
    let _: fn(&Test, &Record) -> bool = holds;
    let _: fn(&str, &mut Vec<u8>) -> Result<(), AllocError> = write_escaped;
    let _: fn(&Record, &mut Vec<u8>) -> Result<(), AllocError> = write_record;
    let _: fn(&Value, &mut Vec<u8>) -> Result<(), AllocError> = write_value;
}

// Of sets of records, and of pools.
fn sets() {
    let _: fn(Global) -> RecordSet = RecordSet::new;
    let _: fn(&RecordSet) -> usize = RecordSet::len;
    let _: fn(&RecordSet, &Record) -> bool = RecordSet::contains;
    let _: fn(&mut RecordSet, Record) -> Result<bool, SetFault> = RecordSet::insert;
    let _: fn(&mut RecordSet, &RecordSet) -> Result<(), SetFault> = RecordSet::union_in;
    let _: fn(&mut RecordSet, RecordSet) -> Result<(), SetFault> = RecordSet::take_in;
    let _: fn(&RecordSet, &Test) -> Result<RecordSet, SetFault> = RecordSet::select;
    let _: fn(&RecordSet, &[u32]) -> Result<RecordSet, SetFault> = RecordSet::project;
    let _: fn(&RecordSet, &RecordSet, &[(u32, u32)]) -> Result<RecordSet, SetFault> =
        RecordSet::join;
    let _: fn(&RecordSet, &RecordSet, &[(u32, u32)]) -> Result<RecordSet, SetFault> =
        RecordSet::antijoin;
    let _: fn(&RecordSet, &[u32], Agg) -> Result<RecordSet, SetFault> = RecordSet::group;
    let _: fn(&RecordSet, &[u32], u64) -> Result<RecordSet, SetFault> = RecordSet::at_least;
    let _: fn(Id) -> u32 = Id::number;
    let _: fn(Global) -> Pool = Pool::new;
    let _: fn(&Pool) -> usize = Pool::len;
    let _: fn(&mut Pool, Record) -> Result<Id, PoolFault> = Pool::place;
    let _: fn(&mut Pool) = Pool::reset;
}

// Of names by number, and of gates.
fn names() {
    let _: fn(Attrs, &[Fd]) -> Attrs = closure;
    let _: fn(Global) -> AttrNames = AttrNames::new;
    let _: fn(&AttrNames, &Str) -> Option<u8> = AttrNames::find;
    let _: fn(&mut AttrNames, &Str) -> Result<u8, NamesFault> = AttrNames::add;
    let _: fn(Attrs, Attrs, &[Fd]) -> bool = compatible;
}

/// Names each call with its type.
pub fn name_all() {
    values();
    sets();
    names();
}
