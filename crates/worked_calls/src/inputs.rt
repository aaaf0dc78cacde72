//! What is read of files.
ghost use Rattle.std.specs.Prelude.{◌≡◌, ◌≤◌, Some, IfOk, vec_len};
ghost use Rattle.blz_outside.specs.MemFiles.{bytes_at};
ghost use Rattle.command_checks.specs.Checks as check;
ghost use Rattle.command_checks.specs.Ends.{Ends};
ghost use Rattle.command_checks.specs.Script.{Ending};
ghost use Rattle.topo_forms.specs.Data.{IsData};
ghost use Rattle.worked_calls.specs.Told.{told_of};

use anyhow::{Result, bail};
use blz_outside::{End, Files, MemFiles};
use command_checks::{data_file, schedule_file, valid_topology};
use data_read::Data;
use sched_text::Schedule;
use std::alloc::Global;
use topo_types::Valid;

/// The most bytes of a file.
pub const FILE_LIMIT: usize = 16_777_216;

/// The bytes of a file.
pub fn bytes_in(alloc: Global, name: &str, files: &mut MemFiles) -> Result<Vec<u8>>
    ensures within { IfOk result (λ bytes. vec_len bytes ≤ FILE_LIMIT) }
    ensures bytes { IfOk result (λ bytes. bytes_at files.old.files name.now ≡ Some bytes.items) }
    ensures files { files.new.files ≡ files.old.files }
{
    let mut bytes = Vec::new(alloc);
    match files.read(name, FILE_LIMIT, &mut bytes)? {
        End::Whole => Ok(bytes),
        End::More => bail!("{name} is too long"),
    }
}

/// The valid topology of a file.
pub fn valid_of(alloc: Global, name: &str, files: &mut MemFiles) -> Result<Valid>
    ensures told { IfOk result (λ valid. told_of files.new ≡ told_of files.old) }
    ensures ends { IfOk result (λ valid. Ends (told_of files.old) (check.valid_topology name.now) (Ending.gave valid)) }
{
    match valid_topology(alloc, name, files) {
        Ok(valid) => Ok(valid),
        Err(_) => bail!("{name} is no valid topology"),
    }
}

/// The data of a file.
pub(crate) fn given_of(
    alloc: Global,
    valid: &Valid,
    name: &str,
    files: &mut MemFiles,
) -> Result<Data>
    ensures { IfOk result (IsData valid.now.view) }
{
    match data_file(alloc, valid, name, files) {
        Ok(given) => Ok(given),
        Err(_) => bail!("{name} are no data"),
    }
}

/// The schedule of a file.
pub(crate) fn schedule_of(alloc: Global, name: &str, files: &mut MemFiles) -> Result<Schedule> {
    match schedule_file(alloc, name, files) {
        Ok(schedule) => Ok(schedule),
        Err(_) => bail!("{name} is no schedule"),
    }
}
