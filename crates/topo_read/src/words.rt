//! Values that are one word or one name.
ghost use Rattle.std.specs.Prelude.{◌≡◌, ◌++◌, IfOk, codes, string_bytes};
ghost use Rattle.toml.specs.Data.{string};
ghost use Rattle.toml.specs.View.{view};
ghost use Rattle.topo_read.specs.Written as spec;

use crate::fill::{IntoValue, text};
use std::alloc::{AllocError, Global};
use toml::Value;
use topo_forms::{ColumnType, NoteName, Spot};

// Two names with a dot between them.
fn dotted(alloc: Global, component: &str, port: &str) -> Result<String, AllocError>
    ensures { IfOk result (λ text. string_bytes text ≡ component.now ++ codes "." ++ port.now) }
{
    format!(in alloc; "{component}.{port}")
}

impl IntoValue for Spot {
    ghost written = { spec.spot_data };

    fn into_value(&self, alloc: Global) -> Result<Value, AllocError> {
        let spot = dotted(alloc, self.component.as_str(), self.port.as_str())?;
        Ok(Value::String(spot))
    }
}

fn type_word(column_type: ColumnType) -> &'static str
    ensures { string result.now ≡ spec.type_data column_type }
{
    match column_type {
        ColumnType::Int => "int",
        ColumnType::Text => "text",
        ColumnType::Any => "any",
    }
}

impl IntoValue for ColumnType {
    ghost written = { spec.type_data };

    fn into_value(&self, alloc: Global) -> Result<Value, AllocError> {
        text(alloc, type_word(*self))
    }
}

fn note_word(note: NoteName) -> &'static str
    ensures { string result.now ≡ spec.note_data note }
{
    match note {
        NoteName::CR => "CR",
        NoteName::CW => "CW",
        NoteName::OR => "OR",
        NoteName::OW => "OW",
    }
}

impl IntoValue for NoteName {
    ghost written = { spec.note_data };

    fn into_value(&self, alloc: Global) -> Result<Value, AllocError> {
        text(alloc, note_word(*self))
    }
}
