//! The key that each stream carries.
ghost use Rattle.std.specs.Prelude.{◌≡◌, map, IfOk};
ghost use Rattle.std.specs.List.{enumerate_from};
ghost use Rattle.blz_value.specs.Arrows as carried;
ghost use Rattle.blz_value.specs.Carried as spec;

use crate::attrs::{Attrs, Fd};
use crate::sets::{arrow, bit_if, closed, is_in, is_within, union_of};
use std::alloc::{AllocError, Global};

/// A stream, as carried seals look at it.
#[derive(Drop)]
pub struct Path {
    /// The key that a source declares.
    pub declared: Option<Attrs>,
    /// The key that the stream can carry at all.
    pub key: Option<Attrs>,
    /// Whether its component has a body.
    pub body: bool,
    /// Whether a port has a note towards its output.
    pub some: bool,
    /// Whether each such port has a stream.
    pub fed: bool,
    /// The closure of its output's gate.
    pub reach: u64,
    /// The attributes that its output has with themselves as their roots.
    pub own: u64,
    /// Whether the notes allow the mode to pass seals on.
    pub notes: bool,
    /// The streams into the ports with a note towards its output.
    pub behind: u64,
}

fn is_key(key: u64, other: Option<Attrs>) -> bool
    ensures { result ≡ carried.is_key key other }
{
    match other {
        Some(own) => own.bits == key,
        None => false,
    }
}

// Whether the output of a stream may carry the key.
fn passes(key: u64, path: &Path) -> bool
    ensures { result ≡ spec.passes_by key path.now }
{
    let same = is_key(key, path.key);
    let reached = is_within(key, path.reach);
    let own = is_within(key, path.own);
    path.body && same && path.some && path.fed && reached && own && path.notes
}

fn arrow_of(key: u64, stream: usize, path: &Path) -> Fd
    ensures { result ≡ spec.arrow_by key (stream, path.now) }
{
    arrow(path.behind, bit_if(passes(key, path), stream))
}

fn starts_of(alloc: Global, paths: &[Path], key: u64) -> Result<Vec<u64>, AllocError>
    ensures { IfOk result (λ sets. sets.items ≡ map (spec.start_by key) (enumerate_from 0 paths.now)) }
{
    paths
        .iter()
        .enumerate()
        .map(|(stream, path)| bit_if(is_key(key, path.declared), stream))
        .collect(alloc)
}

fn arrows_of(alloc: Global, paths: &[Path], key: u64) -> Result<Vec<Fd>, AllocError>
    ensures { IfOk result (λ arrows. arrows.items ≡ map (spec.arrow_by key) (enumerate_from 0 paths.now)) }
{
    paths
        .iter()
        .enumerate()
        .map(|(stream, path)| arrow_of(key, stream, path))
        .collect(alloc)
}

// The streams that carry a key.
fn carriers(alloc: Global, paths: &[Path], key: u64) -> Result<u64, AllocError>
    ensures { IfOk result (λ set. set ≡ spec.carriers_by paths.now key) }
{
    let starts = starts_of(alloc, paths, key)?;
    let arrows = arrows_of(alloc, paths, key)?;
    Ok(closed(union_of(&starts), &arrows))
}

fn carried_if(
    alloc: Global,
    paths: &[Path],
    stream: usize,
    key: Attrs,
) -> Result<Option<Attrs>, AllocError>
    ensures { IfOk result (λ own. own ≡ spec.carried_if paths.now stream key) }
{
    let set = carriers(alloc, paths, key.bits)?;
    Ok(if is_in(stream, set) { Some(key) } else { None })
}

fn carried_at(
    alloc: Global,
    paths: &[Path],
    stream: usize,
    path: &Path,
) -> Result<Option<Attrs>, AllocError>
    ensures { IfOk result (λ own. own ≡ spec.carried_by paths.now (stream, path.now)) }
{
    match path.key {
        Some(key) => carried_if(alloc, paths, stream, key),
        None => Ok(None),
    }
}

/// The key that each stream carries.
pub fn all_carried(alloc: Global, paths: &[Path]) -> Result<Vec<Option<Attrs>>, AllocError>
    ensures { IfOk result (λ keys. keys.items ≡ map (spec.carried_by paths.now) (enumerate_from 0 paths.now)) }
{
    let mut keys = Vec::new(alloc);
    for (stream, path) in paths.iter().enumerate() {
        keys.push(carried_at(alloc, paths, stream, path)?)?;
    }
    Ok(keys)
}
