//! The data in a file.
ghost use Rattle.std.specs.Prelude.{◌≡◌, ◌≤◌, IfOk, Some, length, map, slice_index_or, []};
ghost use Rattle.data_read.specs.Reading.{data_of};
ghost use Rattle.topo_forms.specs.Data.{IsData};
ghost use Rattle.topo_forms.specs.Modes.{names_in};
ghost use Rattle.topo_forms.specs.View.{fd_at};
ghost use Rattle.command_checks.specs.Checks as check;
ghost use Rattle.command_checks.specs.Ran.{Gives, Ran};
ghost use Rattle.command_checks.specs.Ends.{files_states, source};
ghost use Rattle.data_read.specs.declared.fault.DataFault.TheVariants as faults;

use crate::file::read_file;
use crate::stop::{Stop, stop_at};
use blz_outside::Files;
use blz_value::{Attrs, Fd, Items, Record, Str};
use data_read::{DataFault, read};
use label_walk::members;
use report_lines::Refusal;
use std::alloc::{AllocError, Global};
use topo_forms::{Data, Valid};

/// The most bytes of a data file.
pub const DATA_LIMIT: usize = 16_777_216;

// The name of an attribute; past the last stands an empty one.
fn name_at(alloc: Global, names: &[Str], attribute: u32) -> Result<Str, AllocError>
    ensures { IfOk result (λ name. name ≡ slice_index_or names.now attribute []) }
{
    match names.get(attribute as usize) {
        Some(name) => name.copy(),
        None => Str::from_text(alloc, ""),
    }
}

fn names_at(alloc: Global, names: &[Str], attributes: &[u32]) -> Result<Vec<Str>, AllocError>
    ensures { IfOk result (λ held. held.items ≡ map (λ attribute. slice_index_or names.now attribute []) attributes.now) }
{
    let mut held = Vec::new(alloc);
    for attribute in attributes {
        held.push(name_at(alloc, names, *attribute)?)?;
    }
    Ok(held)
}

// The names of the attributes in a set, in the order of their numbers.
fn names_of(alloc: Global, names: &[Str], set: Attrs) -> Result<Items<Str>, AllocError>
    ensures { IfOk result (λ held. held ≡ names_in names.now set.bits) }
{
    let held = names_at(alloc, names, &members(alloc, set)?)?;
    Ok(Items::from_vec(held))
}

// The dependency with a number; past the last stands one between no attributes.
fn fd_of(valid: &Valid, fd: u32) -> Fd
    ensures { result ≡ fd_at valid.now.view fd }
{
    if fd < valid.fd_count() {
        valid.fd(fd)
    } else {
        let none = Attrs::from_bits(0);
        Fd {
            from: none,
            to: none,
        }
    }
}

// The refusal of two records that disagree on a dependency.
fn broken(
    alloc: Global,
    valid: &Valid,
    fd: u32,
    first: Record,
    second: Record,
) -> Result<Refusal, AllocError>
    ensures { IfOk result (λ refusal. Some refusal ≡ check.data_refusal valid.now.view (faults.FdBroken fd first second)) }
{
    let names = valid.attr_names();
    let sides = fd_of(valid, fd);
    Ok(Refusal::FdBroken {
        from: names_of(alloc, names, sides.from)?,
        to: names_of(alloc, names, sides.to)?,
        first,
        second,
    })
}

/// The refusal of data; want of memory is none.
pub fn data_refusal(
    alloc: Global,
    valid: &Valid,
    fault: DataFault,
) -> Result<Option<Refusal>, AllocError>
    ensures { IfOk result (λ refusal. refusal ≡ check.data_refusal valid.now.view fault) }
{
    match fault {
        DataFault::NotJson => Ok(Some(Refusal::NotJson)),
        DataFault::DataForm { name, row } => Ok(Some(Refusal::DataForm { name, row })),
        DataFault::TooMany { name } => Ok(Some(Refusal::DataTooMany { name })),
        DataFault::FdBroken { fd, first, second } => {
            Ok(Some(broken(alloc, valid, fd, first, second)?))
        }
        DataFault::NoMemory => Ok(None),
    }
}

// The data that are written in these bytes.
fn data_in(alloc: Global, valid: &Valid, bytes: &[u8]) -> Result<Data, Stop>
    requires { length bytes.now ≤ DATA_LIMIT }
    ensures gives { Gives (λ given. given) result (check.data_in valid.now.view (data_of valid.now bytes.now)) }
    ensures fits { IfOk result (IsData valid.now.view) }
{
    match read(alloc, bytes, valid) {
        Ok(given) => Ok(given),
        Err(fault) => Err(stop_at(alloc, data_refusal(alloc, valid, fault)?)),
    }
}

/// The data of a topology in the file of this name.
pub fn data_file<F: Files>(
    alloc: Global,
    valid: &Valid,
    name: &str,
    files: &mut F,
) -> Result<Data, Stop>
    ensures ran { Ran (λ given. given)
        (files_states (source (F.held files.old) (F.steady files.old) (F.faults files.old))
        (source (F.held files.new) (F.steady files.new) (F.faults files.new)))
        result (check.data_file valid.now name.now) }
    ensures fits { IfOk result (IsData valid.now.view) }
{
    let bytes = read_file(alloc, name, DATA_LIMIT, files)?;
    data_in(alloc, valid, &bytes)
}
