//! Sets of records that only grow, and what is kept over parts that grow or turn: rows by their values
//! in some columns, and running aggregates.
#![tactic(auto)]

mod bag;
mod by_key;
mod columns;
mod counts;
mod grow_set;
mod keyed;
mod partners;
mod row_tree;
mod side;
mod tallies;
mod tally;
mod turn;
mod turn_joins;
mod turn_notins;
mod turning_groups;
mod whole;

pub use bag::{Bag, Passing};
pub use by_key::{RowsByKey, turn_part};
pub use columns::{left_columns, right_columns};
pub use grow_set::GrowSet;
pub use keyed::KeyedRows;
pub use side::Side;
pub use turn::{Turn, Turning, differ, less};
pub use turn_joins::{KeptJoin, join_kept_left, join_kept_right, turn_join};
pub use turn_notins::{KeptNotIn, notin_kept, turn_notin};
pub use turning_groups::TurningGroups;
pub use whole::turn_projected;
