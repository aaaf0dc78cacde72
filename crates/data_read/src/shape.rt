//! What a row and what a part of each source hold.
ghost use Rattle.std.specs.Prelude.{◌≡◌, ◌<◌, IfOk, length, map};
ghost use Rattle.data_read.specs.Shape as spec;
ghost use Rattle.topo_forms.specs.View as view;

use crate::dependencies::columns::{columns_of, places_of};
use blz_value::{Attrs, Items, Str};
use std::alloc::{AllocError, Global};
use topo_forms::{ColumnType, Valid, carries};

/// What a source may hold.
#[derive(Drop)]
pub(crate) struct Shape {
    /// The name of the source.
    pub(crate) name: Str,
    /// The types of a row's values.
    pub(crate) types: Items<ColumnType>,
    /// Whether the source has a key, and so parts.
    pub(crate) is_sealed: bool,
    /// The types of a part's values.
    pub(crate) key: Items<ColumnType>,
}

fn type_at(valid: &Valid, source: u32, column: usize) -> ColumnType
    ensures { result ≡ spec.type_at valid.now source column }
{
    let sources = valid.topology().sources.as_slice();
    match sources.get(source as usize) {
        Some(entry) => match entry.types.as_slice().get(column) {
            Some(column_type) => *column_type,
            None => ColumnType::Any,
        },
        None => ColumnType::Any,
    }
}

fn types_at(
    alloc: Global,
    valid: &Valid,
    source: u32,
    places: &[usize],
) -> Result<Items<ColumnType>, AllocError>
    ensures { IfOk result (λ types. types ≡ map (spec.type_at valid.now source) places.now) }
{
    let mut types = Vec::new(alloc);
    for place in places {
        types.push(type_at(valid, source, *place))?;
    }
    Ok(Items::from_vec(types))
}

#[tactic(auto, using(crate::proofs::Loops::below_steps))]
fn column_types(alloc: Global, valid: &Valid, source: u32) -> Result<Items<ColumnType>, AllocError>
    requires { source < length valid.now.view.streams }
    ensures { IfOk result (λ types. types ≡ spec.column_types valid.now source) }
{
    let mut types = Vec::new(alloc);
    for place in 0..valid.stream_width(source) {
        types.push(type_at(valid, source, place as usize))?;
    }
    Ok(Items::from_vec(types))
}

fn key_types(
    alloc: Global,
    valid: &Valid,
    source: u32,
    key: Option<Attrs>,
) -> Result<Items<ColumnType>, AllocError>
    requires { source < length valid.now.view.streams }
    ensures { IfOk result (λ types. types ≡ spec.key_types valid.now source key) }
{
    let Some(key) = key else {
        return Ok(Items::from_vec(Vec::new(alloc)));
    };
    let columns = columns_of(alloc, valid, source)?;
    let places = places_of(alloc, &columns, key)?;
    types_at(alloc, valid, source, &places)
}

// The key of a source, which is the one that it carries.
fn key_of(valid: &Valid, source: u32) -> Option<Attrs>
    requires { source < view.source_count valid.now.view }
    ensures { result ≡ (view.stream_at valid.now.view source).key }
{
    valid.known();
    carries(valid, source)
}

#[tactic(auto, using(topo_forms::proofs::KeyOfSource::source_stream))]
fn shape_of(alloc: Global, valid: &Valid, source: u32) -> Result<Shape, AllocError>
    requires { source < view.source_count valid.now.view }
    ensures { IfOk result (λ shape. shape ≡ spec.shape_of valid.now source) }
{
    let key = key_of(valid, source);
    Ok(Shape {
        name: valid.stream_name(source).copy()?,
        types: column_types(alloc, valid, source)?,
        is_sealed: key.is_some(),
        key: key_types(alloc, valid, source, key)?,
    })
}

/// The shapes of all sources, in file order.
#[tactic(auto, using(crate::proofs::Loops::below_steps))]
pub(crate) fn shapes_of(alloc: Global, valid: &Valid) -> Result<Vec<Shape>, AllocError>
    ensures { IfOk result (λ shapes. shapes.items ≡ spec.shapes_of valid.now) }
{
    let mut shapes = Vec::new(alloc);
    for source in 0..valid.source_count() {
        shapes.push(shape_of(alloc, valid, source)?)?;
    }
    Ok(shapes)
}
