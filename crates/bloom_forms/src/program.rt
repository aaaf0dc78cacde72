//! Programs: modules that were checked, and stock bodies.
ghost use Rattle.std.specs.Prelude.{◌≡◌, ◌≢◌, ◌≤◌, ◌<◌, [], length, slice_index_or, All, AllPairs};
ghost use Rattle.std.proofs.Common.{rules};
ghost use Rattle.bloom_forms.specs.Kinds.{same_kind, of_kind};
ghost use Rattle.bloom_forms.specs.Program.{
  IsSmall,
  IsStock,
  columns_of_kind,
  key_columns,
  port_columns,
  output_columns,
  table_columns,
};

use crate::checked::Checked;
use crate::module::{Collection, Kind};
use blz_value::{Faithful, Items, Str};

/// What a component does: a module that was checked, or a stock body. A stock body has at most eight
/// columns, numbered from 0.
#[derive(Clone, Drop)]
pub enum Program {
    /// A module.
    Module(Checked),
    /// Splits the text in a column into words.
    Split {
        columns: Items<Str>,
        split: u32,
    },
    /// Keeps the greatest record of each step for each key, and answers with it.
    Latest {
        columns: Items<Str>,
        keys: Items<u32>,
    },
    /// Numbers the records in the order in which they come.
    Number {
        columns: Items<Str>,
    },
}

impl Faithful for Program {
    ghost equal = { Prim.search rules };
}

fn has_kind(collection: &Collection, kind: Kind) -> bool
    ensures { result ≡ same_kind kind collection.now.kind }
{
    kind == collection.kind
}

// How many collections are of a kind.
fn count_of(collections: &[Collection], kind: Kind) -> u32
    requires { length collections.now ≤ 32 }
    ensures { result ≡ length (of_kind kind collections.now) }
{
    let mut count = 0;
    for collection in collections {
        if has_kind(collection, kind) {
            count += 1;
        }
    }
    count
}

// How many columns the collection has that stands at a place among those of its kind.
fn width_at(collections: &[Collection], kind: Kind, place: u32) -> u32
    requires small { IsSmall collections.now }
    requires within { place < length (of_kind kind collections.now) }
    ensures { result ≡ length (slice_index_or (columns_of_kind kind collections.now) place []) }
{
    let mut left = place;
    for collection in collections {
        if has_kind(collection, kind) {
            if left == 0 {
                return collection.columns.as_slice().len() as u32;
            }
            left -= 1;
        }
    }
    0
}

// How many keys there are.
#[tactic(auto, using(crate::proofs::Collections::Keys::count_of_keys, crate::proofs::Collections::Keys::few_keys))]
fn key_count(columns: &[Str], keys: &[u32]) -> u32
    requires few { length columns.now ≤ 8 }
    requires below { All (λ key. key < length columns.now) keys.now }
    requires distinct { AllPairs (λ a b. a ≢ b) keys.now }
    ensures { result ≡ length (key_columns columns.now keys.now) }
{
    keys.len() as u32
}

impl Program {
    /// The number of ports.
    #[tactic(auto, using(crate::proofs::Collections::Small::few, crate::proofs::Collections::Small::small))]
    pub fn port_count(&self) -> u32
        requires stock { IsStock self.now }
        ensures { result ≡ length (port_columns self.now) }
    {
        match self {
            Program::Module(checked) => {
                count_of(checked.module().collections.as_slice(), Kind::Input)
            }
            Program::Split { .. } | Program::Number { .. } => 1,
            Program::Latest { .. } => 2,
        }
    }

    /// The number of outputs.
    #[tactic(auto, using(crate::proofs::Collections::Small::few, crate::proofs::Collections::Small::small))]
    pub fn output_count(&self) -> u32
        requires stock { IsStock self.now }
        ensures { result ≡ length (output_columns self.now) }
    {
        match self {
            Program::Module(checked) => {
                count_of(checked.module().collections.as_slice(), Kind::Output)
            }
            Program::Split { .. } | Program::Latest { .. } | Program::Number { .. } => 1,
        }
    }

    /// The number of tables.
    #[tactic(auto, using(crate::proofs::Collections::Small::few, crate::proofs::Collections::Small::small))]
    pub fn table_count(&self) -> u32
        requires stock { IsStock self.now }
        ensures { result ≡ length (table_columns self.now) }
    {
        match self {
            Program::Module(checked) => {
                count_of(checked.module().collections.as_slice(), Kind::Table)
            }
            Program::Split { .. } => 0,
            Program::Latest { .. } | Program::Number { .. } => 1,
        }
    }

    /// How many columns a port has. Ports are numbered from 0 in declared order.
    #[tactic(auto, using(crate::proofs::Collections::Small::few, crate::proofs::Collections::Small::small))]
    pub fn port_width(&self, port: u32) -> u32
        requires stock { IsStock self.now }
        requires within { port < length (port_columns self.now) }
        ensures { result ≡ length (slice_index_or (port_columns self.now) port []) }
    {
        match self {
            Program::Module(checked) => {
                width_at(checked.module().collections.as_slice(), Kind::Input, port)
            }
            Program::Latest { columns, keys } if port == 1 => {
                key_count(columns.as_slice(), keys.as_slice())
            }
            Program::Split { columns, .. }
            | Program::Latest { columns, .. }
            | Program::Number { columns } => columns.as_slice().len() as u32,
        }
    }

    /// How many columns an output has. Outputs are numbered from 0 in declared order.
    #[tactic(auto, using(crate::proofs::Collections::Small::few, crate::proofs::Collections::Small::small))]
    pub fn output_width(&self, output: u32) -> u32
        requires stock { IsStock self.now }
        requires within { output < length (output_columns self.now) }
        ensures { result ≡ length (slice_index_or (output_columns self.now) output []) }
    {
        match self {
            Program::Module(checked) => {
                width_at(
                    checked.module().collections.as_slice(),
                    Kind::Output,
                    output,
                )
            }
            Program::Latest { columns, .. } => columns.as_slice().len() as u32,
            Program::Split { columns, .. } | Program::Number { columns } => {
                columns.as_slice().len() as u32 + 1
            }
        }
    }
}
