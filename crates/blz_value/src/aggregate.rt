//! What a group makes of the rows of one key.

/// What a group computes of the rows with one key. A column is a number from 0.
#[derive(Clone, Copy, PartialEq, Eq)]
pub enum Agg {
    /// The number of rows.
    Count,
    /// The sum of the numbers in the column, moved to the nearest i64. A text adds nothing.
    Sum(u32),
    /// The least value in the column.
    Min(u32),
    /// The greatest value in the column.
    Max(u32),
}
