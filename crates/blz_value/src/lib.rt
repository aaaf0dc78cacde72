//! Values, records and their order, tests over records, their text, and what the operators of the
//! module language make of lists of records; sets of numbers, their closures and regions.
#![tactic(auto)]

mod aggregate;
mod attrs;
mod carried;
mod closing;
mod closure_laws;
mod faithful;
mod hash_key;
mod items;
mod laws;
mod name;
mod record;
mod regions;
mod sets;
mod test;
mod text;
mod value;
mod write;

pub use aggregate::Agg;
pub use attrs::{Attrs, Fd};
pub use carried::{Path, all_carried};
pub use closing::closure;
pub use closure_laws::closure_law;
pub use faithful::{Faithful, copies_of, copy_all};
pub use hash_key::HashKey;
pub use items::Items;
pub use laws::{record_order_law, set_law};
pub use name::is_name;
pub use record::{Record, compare};
pub use regions::{is_cyclic, regions_in, sets_of};
pub use sets::{arrow, bit_if, bit_of, closed, is_in, is_within, set_at, union_of};
pub use test::{Op, Operand, Test, holds};
pub use text::Str;
pub use value::{Value, compare_values};
pub use write::{write_escaped, write_record, write_value};
