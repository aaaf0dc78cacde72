//! The names of copies, of their streams and of their files.
ghost use Rattle.std.specs.Prelude.{◌≡◌, ◌<◌, IfOk, length};
ghost use Rattle.std.specs.List.{list_any};
ghost use Rattle.shard_route.specs.Routing as spec;

use blz_value::Str;
use std::alloc::{AllocError, Global};
use topo_forms::{Body, ComponentEntry, StreamEntry};

/// The most bytes of a name.
const MAX_NAME: usize = 64;

/// The numbers of so many copies, counted from 1.
#[tactic(auto, using(crate::proofs::Walks::number_more))]
pub fn numbers_to(alloc: Global, count: usize) -> Result<Vec<u32>, AllocError>
    requires { count < 64 }
    ensures { IfOk result (λ numbers. numbers.items ≡ spec.numbers_to count) }
{
    let mut numbers = Vec::new(alloc);
    for place in 0..count {
        numbers.push(place as u32 + 1)?;
    }
    Ok(numbers)
}

/// The name with the number behind it.
pub fn numbered(alloc: Global, name: &Str, number: u32) -> Result<Str, AllocError>
    ensures { IfOk result (λ text. text ≡ spec.numbered name.now number) }
{
    let mut text = String::from_str(alloc, name.as_str())?;
    text.push_str("_")?;
    text.push_str(number.to_string(alloc)?.as_str())?;
    Str::from_text(alloc, text.as_str())
}

/// The file of a copy's module.
pub fn file_of(alloc: Global, name: &Str, number: u32) -> Result<Str, AllocError>
    ensures { IfOk result (λ file. file ≡ spec.file_of name.now number) }
{
    let mut text = String::from_str(alloc, numbered(alloc, name, number)?.as_str())?;
    text.push_str(".bloom")?;
    Str::from_text(alloc, text.as_str())
}

fn is_long_name(name: &Str) -> bool
    ensures { result ≡ spec.is_long_name name.now }
{
    name.as_str().len() > MAX_NAME
}

// Whether a copy's name is too long.
fn has_long_copy(alloc: Global, name: &Str, numbers: &[u32]) -> Result<bool, AllocError>
    ensures { IfOk result (λ long. long ≡ list_any (λ i. spec.is_long_name (spec.numbered name.now i)) numbers.now) }
{
    for number in numbers {
        if is_long_name(&numbered(alloc, name, *number)?) {
            return Ok(true);
        }
    }
    Ok(false)
}

fn has_long_stream(streams: &[StreamEntry]) -> bool
    ensures { result ≡ list_any (λ s. spec.is_long_name s.name) streams.now }
{
    streams.iter().any(|stream| is_long_name(&stream.name))
}

// Whether the component has its module in this file.
fn is_file_of(component: &ComponentEntry, file: &Str) -> bool
    ensures { result ≡ spec.has_file_in file.now component.now.body }
{
    match &component.body {
        Body::Module(own) => file.equals(own),
        Body::Stock(_) | Body::None => false,
    }
}

fn has_file(components: &[ComponentEntry], file: &Str) -> bool
    ensures { result ≡ spec.has_file components.now file.now }
{
    components
        .iter()
        .any(|component| is_file_of(component, file))
}

// Whether a component has the file of a copy.
fn has_copy_file(
    alloc: Global,
    components: &[ComponentEntry],
    name: &Str,
    numbers: &[u32],
) -> Result<bool, AllocError>
    ensures { IfOk result (λ has. has ≡ list_any (λ i. spec.has_file components.now (spec.file_of name.now i)) numbers.now) }
{
    for number in numbers {
        if has_file(components, &file_of(alloc, name, *number)?) {
            return Ok(true);
        }
    }
    Ok(false)
}

/// Whether a copy's name or that of a stream is too long, or a copy's file is one that a component
/// has, where these are the streams that there will be.
pub fn has_bad_names(
    alloc: Global,
    components: &[ComponentEntry],
    streams: &[StreamEntry],
    name: &Str,
    numbers: &[u32],
) -> Result<bool, AllocError>
    ensures { IfOk result (λ bad. bad ≡ spec.are_bad_names components.now streams.now name.now numbers.now) }
{
    if has_long_copy(alloc, name, numbers)? || has_long_stream(streams) {
        return Ok(true);
    }
    has_copy_file(alloc, components, name, numbers)
}
