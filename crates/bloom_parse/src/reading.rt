//! From terminals to a module.

pub(crate) mod expressions;
pub(crate) mod lists;
pub(crate) mod predicates;
pub(crate) mod read_fault;
pub(crate) mod reader;
pub(crate) mod single;
