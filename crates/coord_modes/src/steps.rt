//! Which steps a plan takes.

/// Which steps a plan takes: those by which components get keys, and those by which they become
/// Order.
#[derive(Clone, Copy, PartialEq, Eq)]
pub struct Steps {
    pub keys: bool,
    pub orders: bool,
}
