//! The limit of the emitted lists together.

/// The most messages of all emitted lists together.
pub const MAX_MESSAGES: usize = 262_144;
