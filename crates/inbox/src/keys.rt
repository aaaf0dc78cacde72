//! The columns of a key.
ghost use Rattle.std.specs.Prelude.{◌≡◌, ◌<◌, IfOk, Some, length};
ghost use Rattle.bloom_forms.specs.Roots.{are_same};
ghost use Rattle.topo_forms.specs.Data.{place_of_attribute, key_places};
ghost use Rattle.topo_forms.specs.View.{stream_at};

use blz_value::Attrs;
use std::alloc::{AllocError, Global};
use topo_forms::Valid;

fn is_column(column: Option<u8>, attribute: u8) -> bool
    ensures { result ≡ are_same column (Some attribute) }
{
    match column {
        Some(own) => own == attribute,
        None => false,
    }
}

// The place of an attribute among the columns of a stream, and their number where it is none of them.
fn place_of(valid: &Valid, stream: u32, attribute: u8) -> u32
    requires { stream < length valid.now.view.streams }
    ensures { result ≡ place_of_attribute (stream_at valid.now.view stream).columns attribute }
{
    let width = valid.stream_width(stream);
    for place in 0..width {
        if is_column(valid.stream_column(stream, place), attribute) {
            return place;
        }
    }
    width
}

/// The places of a key's columns in a stream, in the order of the attributes' numbers; past the end
/// where the stream lacks one. The error is want of memory.
#[tactic(auto, using(crate::proofs::Ranges::below_steps))]
pub(crate) fn key_columns(
    alloc: Global,
    valid: &Valid,
    stream: u32,
    key: Attrs,
) -> Result<Vec<u32>, AllocError>
    requires { stream < length valid.now.view.streams }
    ensures { IfOk result (λ columns. columns.items ≡ key_places (stream_at valid.now.view stream).columns key.bits) }
{
    let mut columns = Vec::new(alloc);
    for attribute in 0..64u8 {
        if key.has(attribute) {
            columns.push(place_of(valid, stream, attribute))?;
        }
    }
    Ok(columns)
}
