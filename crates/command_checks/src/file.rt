//! The read of a file, and its length.
ghost use Rattle.std.specs.Prelude.{◌≡◌, ◌≤◌, length, IfOk};
ghost use Rattle.command_checks.specs.FileChecks as check;
ghost use Rattle.command_checks.specs.Ran.{IsFailure, IsRefused, Ran};
ghost use Rattle.command_checks.specs.Ends.{files_states, source};
ghost use Rattle.report_lines.specs.Refusals.{refusal_line};
ghost use Rattle.report_lines.specs.declared.refusal.Refusal.TheVariants as refusals;

use crate::stop::{Stop, refused};
use blz_outside::{End, Files, ReadFail};
use blz_value::Str;
use report_lines::Refusal;
use std::alloc::Global;

// The stop at a file of this name that is above its limit.
fn too_long(alloc: Global, name: &str) -> Stop
    ensures { IsRefused (refusal_line (refusals.TooLong name.now)) result }
{
    match Str::from_text(alloc, name) {
        Ok(file) => refused(alloc, &Refusal::TooLong { file }),
        Err(_) => Stop::NoMemory,
    }
}

// The stop where the read of this name fails.
fn failed(alloc: Global, name: &str) -> Stop
    ensures { IsFailure name.now result }
{
    match Str::from_text(alloc, name) {
        Ok(name) => Stop::Failed(name),
        Err(_) => Stop::NoMemory,
    }
}

/// The bytes of the file of this name, which may have `most` bytes.
pub fn read_file<F: Files>(
    alloc: Global,
    name: &str,
    most: usize,
    files: &mut F,
) -> Result<Vec<u8>, Stop>
    ensures ran { Ran (λ bytes. bytes.items)
        (files_states (source (F.held files.old) (F.steady files.old) (F.faults files.old))
        (source (F.held files.new) (F.steady files.new) (F.faults files.new)))
        result (check.file most name.now) }
    ensures within { IfOk result (λ bytes. length bytes.items ≤ most) }
{
    let mut bytes = Vec::new(alloc);
    match files.read(name, most, &mut bytes) {
        Ok(End::Whole) => Ok(bytes),
        Ok(End::More) => Err(too_long(alloc, name)),
        Err(ReadFail::Failed) => Err(failed(alloc, name)),
        Err(ReadFail::NoMemory) => Err(Stop::NoMemory),
    }
}
