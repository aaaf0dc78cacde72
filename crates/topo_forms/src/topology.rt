//! The parts of a topology, by the names that stand in its file.
ghost use Rattle.std.specs.Prelude.{◌≡◌};
ghost use Rattle.std.proofs.Common.{rules};

use blz_value::{Faithful, Items, Str};
use std::alloc::AllocError;

/// A topology. Each list stands in the order of the file.
#[derive(Clone, Drop)]
pub struct Topology {
    /// The number of the file's format.
    pub format: u32,
    pub sources: Items<SourceEntry>,
    pub components: Items<ComponentEntry>,
    pub streams: Items<StreamEntry>,
    pub fds: Items<FdEntry>,
}

impl Faithful for Topology {
    ghost equal = { Prim.search rules };
}

/// A port of a component, or, where a stream begins, an output.
#[derive(Clone, Drop)]
pub struct Spot {
    pub component: Str,
    /// The name of the port or of the output.
    pub port: Str,
}

impl Faithful for Spot {
    ghost equal = { Prim.search rules };
}

/// A stream that comes from outside.
#[derive(Clone, Drop)]
pub struct SourceEntry {
    pub name: Str,
    pub columns: Items<Str>,
    /// The type of each column, in their order.
    pub types: Items<ColumnType>,
    /// The key of its seals; a source without seals has none.
    pub seal: Items<Str>,
    /// The ports to which it goes.
    pub to: Items<Spot>,
}

impl Faithful for SourceEntry {
    ghost equal = { Prim.search rules };
}

/// What a column of a source may hold.
#[derive(Clone, Copy, PartialEq, Eq)]
pub enum ColumnType {
    Int,
    Text,
    /// A number or a text.
    Any,
}

impl Faithful for ColumnType {
    ghost equal = { Prim.search rules };
}

/// A component.
#[derive(Drop)]
pub struct ComponentEntry {
    pub name: Str,
    pub body: Body,
    /// The ports of a component without a body.
    pub inputs: Items<Side>,
    /// The outputs of a component without a body.
    pub outputs: Items<Side>,
    /// The notes that are declared, in place of those that would be derived.
    pub notes: Items<Declared>,
    /// How many instances of it there are.
    pub replicas: i64,
    pub mode: ModeName,
    /// The key of the modes Pass and Seal; the other modes have none.
    pub key: Items<Str>,
}

// The body is made last, so that none is held at a later want of memory.
impl Clone for ComponentEntry {
    ghost is_clone = { λ one clone. clone ≡ one };

    fn clone(&self) -> Result<ComponentEntry, AllocError> {
        Ok(ComponentEntry {
            name: self.name.clone()?,
            inputs: self.inputs.clone()?,
            outputs: self.outputs.clone()?,
            notes: self.notes.clone()?,
            key: self.key.clone()?,
            replicas: self.replicas,
            mode: self.mode,
            body: self.body.copied()?,
        })
    }
}

impl Faithful for ComponentEntry {
    ghost equal = { λ _ _ same. same };
}

/// What a component runs.
#[derive(Clone, Drop)]
pub enum Body {
    /// The module in the file of this name.
    Module(Str),
    Stock(Stock),
    /// Nothing: the component runs elsewhere, and its ports and outputs are declared.
    None,
}

impl Faithful for Body {
    ghost equal = { Prim.search rules };
}

/// A body that needs no module.
#[derive(Clone, Drop)]
pub enum Stock {
    /// Gives a row for each word of the text in one column.
    Split {
        columns: Items<Str>,
        split: Str,
    },
    /// Keeps the latest record of each key, and the greatest of several at once, and answers with
    /// it when asked.
    Latest {
        columns: Items<Str>,
        keys: Items<Str>,
    },
    /// Numbers the distinct records in the order in which they come.
    Number {
        columns: Items<Str>,
    },
}

impl Faithful for Stock {
    ghost equal = { Prim.search rules };
}

/// A port or an output with its columns.
#[derive(Clone, Drop)]
pub struct Side {
    pub name: Str,
    pub columns: Items<Str>,
}

impl Faithful for Side {
    ghost equal = { Prim.search rules };
}

/// A declared note of the path from a port to an output.
#[derive(Clone, Drop)]
pub struct Declared {
    /// The port.
    pub from: Str,
    /// The output.
    pub to: Str,
    pub note: NoteName,
    /// The gate of a note OR or OW; the others have none.
    pub gate: Items<Str>,
}

impl Faithful for Declared {
    ghost equal = { Prim.search rules };
}

/// A note without its gate: C for confluent, O for order-sensitive, R where state is left alone,
/// W where it is changed.
#[derive(Clone, Copy, PartialEq, Eq)]
pub enum NoteName {
    CR,
    CW,
    OR,
    OW,
}

impl Faithful for NoteName {
    ghost equal = { Prim.search rules };
}

/// A mode without its key.
#[derive(Clone, Copy, PartialEq, Eq)]
pub enum ModeName {
    Free,
    Pass,
    Seal,
    Order,
}

impl Faithful for ModeName {
    ghost equal = { Prim.search rules };
}

/// A stream from an output to ports.
#[derive(Clone, Drop)]
pub struct StreamEntry {
    pub name: Str,
    /// The output from which it comes.
    pub from: Spot,
    /// The ports to which it goes.
    pub to: Items<Spot>,
}

impl Faithful for StreamEntry {
    ghost equal = { Prim.search rules };
}

/// A dependency: rows with equal values in all of `from` have equal values in all of `to`, and the
/// other way round.
#[derive(Clone, Drop)]
pub struct FdEntry {
    pub from: Items<Str>,
    pub to: Items<Str>,
}

impl Faithful for FdEntry {
    ghost equal = { Prim.search rules };
}
