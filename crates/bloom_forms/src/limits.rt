//! The bounds of the grammar of modules.

/// Most levels that are open at once.
pub const MOST_LEVELS: u32 = 32;

/// Most comparisons in a select.
pub const MOST_COMPARISONS: u32 = 32;

/// Most bytes of a text literal.
pub const MOST_BYTES: usize = 64;
