//! The view of a topology: its parts by their numbers.

pub(crate) mod bodies;
pub(crate) mod building;
pub(crate) mod components;
pub(crate) mod numbers;
pub(crate) mod sites;
pub(crate) mod streams;
