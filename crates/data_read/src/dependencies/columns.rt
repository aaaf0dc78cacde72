//! The columns of a source, and the places of a key's columns among them.
ghost use Rattle.std.specs.Prelude.{◌≡◌, ◌<◌, Some, IfOk, length};
ghost use Rattle.std.specs.List.{position_from};
ghost use Rattle.blz_value.specs.Bits.{members};
ghost use Rattle.bloom_forms.specs.Gates.{root_set, set_of_roots};
ghost use Rattle.bloom_forms.specs.Roots.{are_same};
ghost use Rattle.topo_forms.specs.Data.{place_of_attribute, key_places};
ghost use Rattle.topo_forms.specs.View as view;

use blz_value::Attrs;
use std::alloc::{AllocError, Global};
use topo_forms::Valid;

/// The attributes of a stream's columns.
pub(crate) fn columns_of(
    alloc: Global,
    valid: &Valid,
    stream: u32,
) -> Result<Vec<Option<u8>>, AllocError>
    requires { stream < length valid.now.view.streams }
    ensures { IfOk result (λ columns. columns.items ≡ (view.stream_at valid.now.view stream).columns) }
{
    let mut columns = Vec::new(alloc);
    for place in 0..valid.stream_width(stream) {
        columns.push(valid.stream_column(stream, place))?;
    }
    Ok(columns)
}

fn set_of(root: Option<u8>) -> Attrs
    ensures { result.bits ≡ root_set root }
{
    match root {
        Some(attribute) => Attrs::of(attribute as usize),
        None => Attrs::from_bits(0),
    }
}

/// The attributes of some columns.
pub(crate) fn attributes_of(columns: &[Option<u8>]) -> Attrs
    ensures { result.bits ≡ set_of_roots columns.now }
{
    let mut set = Attrs::from_bits(0);
    for column in columns {
        set = set.union(set_of(*column));
    }
    set
}

fn is_column(column: Option<u8>, attribute: u8) -> bool
    ensures { result ≡ are_same column (Some attribute) }
{
    match column {
        Some(own) => own == attribute,
        None => false,
    }
}

fn position_of(columns: &[Option<u8>], attribute: u8) -> Option<usize>
    ensures { result ≡ position_from (λ column. are_same column (Some attribute)) 0 columns.now }
{
    columns
        .iter()
        .position(|column| is_column(*column, attribute))
}

fn place_of(columns: &[Option<u8>], attribute: u8) -> usize
    ensures { result ≡ place_of_attribute columns.now attribute }
{
    match position_of(columns, attribute) {
        Some(place) => place,
        None => columns.len(),
    }
}

// The attributes of a key, in the order of their numbers.
#[tactic(auto, using(crate::proofs::Loops::below_steps))]
fn members_of(alloc: Global, key: Attrs) -> Result<Vec<u8>, AllocError>
    ensures { IfOk result (λ some. some.items ≡ members key.bits) }
{
    let mut members = Vec::new(alloc);
    for attribute in 0..64u8 {
        if key.has(attribute) {
            members.push(attribute)?;
        }
    }
    Ok(members)
}

/// The places of the columns of a key, in the order of the attributes' numbers; past the end where the
/// key has an attribute that is no column.
pub(crate) fn places_of(
    alloc: Global,
    columns: &[Option<u8>],
    key: Attrs,
) -> Result<Vec<usize>, AllocError>
    ensures { IfOk result (λ places. places.items ≡ key_places columns.now key.bits) }
{
    let members = members_of(alloc, key)?;
    let mut places = Vec::new(alloc);
    for attribute in &members {
        places.push(place_of(columns, *attribute))?;
    }
    Ok(places)
}
