//! Names of attributes as numbers: columns, keys, modes and notes.
ghost use Rattle.std.specs.Prelude.{◌≡◌, ◌≤◌, map, IfOk};
ghost use Rattle.bloom_forms.specs.HeadRoots.{attribute_roots};
ghost use Rattle.topo_forms.specs.Sites.{attribute_number};
ghost use Rattle.topo_forms.specs.ViewOf as spec;

use bloom_forms::{Mode, Note};
use blz_value::{Attrs, Fd, Items, Str};
use fd_closure::AttrNames;
use std::alloc::{AllocError, Global};
use topo_forms::{FdEntry, ModeName, NoteName};

// The number of an attribute; past the end where the name is none.
fn number_of(names: &AttrNames, name: &Str) -> u8
    ensures number { result ≡ attribute_number names.now name.now }
    ensures small { result ≤ 64 }
{
    match names.find(name) {
        Some(number) => number,
        None => names.names().len() as u8,
    }
}

/// The attributes of columns, past the end where a name is none.
pub(crate) fn numbers_of(
    alloc: Global,
    names: &AttrNames,
    columns: &[Str],
) -> Result<Vec<u8>, AllocError>
    ensures { IfOk result (λ numbers. numbers.items ≡ map (attribute_number names.now) columns.now) }
{
    columns
        .iter()
        .map(|column| number_of(names, column))
        .collect(alloc)
}

/// The attributes of columns, where their names are some.
pub(crate) fn attributes_of(
    alloc: Global,
    names: &AttrNames,
    columns: &[Str],
) -> Result<Items<Option<u8>>, AllocError>
    ensures { IfOk result (λ roots. roots ≡ attribute_roots names.now columns.now) }
{
    let mut roots = Vec::new(alloc);
    for column in columns {
        roots.push(names.find(column))?;
    }
    Ok(Items::from_vec(roots))
}

/// The set of the attributes of these names.
pub(crate) fn attribute_set(names: &AttrNames, columns: &[Str]) -> Attrs
    ensures { result ≡ spec.attribute_set names.now columns.now }
{
    let mut set = Attrs::from_bits(0);
    for column in columns {
        set = set.union(Attrs::of(number_of(names, column) as usize));
    }
    set
}

/// The key of some seals, and none of no name.
pub(crate) fn key_of(names: &AttrNames, key: &[Str]) -> Option<Attrs>
    ensures { result ≡ spec.key_of names.now key.now }
{
    if key.is_empty() {
        return None;
    }
    Some(attribute_set(names, key))
}

/// A mode with its key.
pub(crate) fn mode_from(names: &AttrNames, mode: ModeName, key: &[Str]) -> Mode
    ensures { result ≡ spec.mode_from names.now mode key.now }
{
    match mode {
        ModeName::Free => Mode::Free,
        ModeName::Pass => Mode::Pass(attribute_set(names, key)),
        ModeName::Seal => Mode::Seal(attribute_set(names, key)),
        ModeName::Order => Mode::Order,
    }
}

/// A note with its gate.
pub(crate) fn note_from(names: &AttrNames, note: NoteName, gate: &[Str]) -> Note
    ensures { result ≡ spec.note_from names.now note gate.now }
{
    match note {
        NoteName::CR => Note::CR,
        NoteName::CW => Note::CW,
        NoteName::OR => Note::OR(attribute_set(names, gate)),
        NoteName::OW => Note::OW(attribute_set(names, gate)),
    }
}

fn fd_of(names: &AttrNames, fd: &FdEntry) -> Fd
    ensures { result ≡ spec.fd_view names.now fd.now }
{
    let from = attribute_set(names, fd.from.as_slice());
    let to = attribute_set(names, fd.to.as_slice());
    Fd { from, to }
}

/// The dependencies as sets.
pub(crate) fn fds_of(
    alloc: Global,
    names: &AttrNames,
    fds: &[FdEntry],
) -> Result<Vec<Fd>, AllocError>
    ensures { IfOk result (λ sets. sets.items ≡ map (spec.fd_view names.now) fds.now) }
{
    fds.iter().map(|fd| fd_of(names, fd)).collect(alloc)
}
