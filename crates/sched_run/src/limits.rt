//! The limit of a schedule that is made.

/// The most events of a schedule that is made.
pub(crate) const MAX_EVENTS: usize = 1_000_000;
