//! What the rows themselves show, of calls that the program doesn't make.
ghost use Rattle.std.specs.Prelude.{◌≡◌, ◌≤◌, Some, IfOk, length, map, string_bytes, vec_len};
ghost use Rattle.blz_outside.specs.MemFiles.{bytes_at};
ghost use Rattle.sched_text.specs.Reading.{event_reading};
ghost use Rattle.worked_calls.specs.Shown.{AreShown, IsScheduleShown, IsShown, line_shown};

use crate::inputs::{FILE_LIMIT, bytes_in};
use crate::modules::module_shown;
use crate::shells::shells_shown;
use crate::sides::sides_shown;
use crate::types::name_all;
use anyhow::{Result, bail};
use blz_outside::MemFiles;
use sched_text::{Schedule, ScheduleFault, print, read_line};
use std::alloc::Global;

/// What is shown for these words over files:
///
/// - `printed FILE`: a schedule, as it is printed.
/// - `event FILE`: the event of a line that stands alone, as it is printed.
/// - `shells FILE`: what three shells put out and keep, one of them with the module of the file.
/// - `sides FILE`: what the sides of an indexed shell with the module of the file lend, and whether its steps
///   equal those of a plain shell.
/// - a further word and FILE: what [`module_shown`] shows of the text of a module.
pub fn shown(alloc: Global, words: &[String], files: &mut MemFiles) -> Result<Vec<u8>>
    ensures shown { IfOk result
        (λ text. AreShown (map string_bytes words.now) (bytes_at files.old.files) text.items) }
    ensures files { files.new.files ≡ files.old.files }
{
    name_all();
    let [kind, name] = words else {
        bail!("nothing is shown for so many words");
    };
    bytes_shown(
        alloc,
        kind.as_str(),
        &bytes_in(alloc, name.as_str(), files)?,
    )
}

// What is shown of the bytes of a file.
fn bytes_shown(alloc: Global, kind: &str, bytes: &[u8]) -> Result<Vec<u8>>
    requires { length bytes.now ≤ FILE_LIMIT }
    ensures { IfOk result (λ text. IsShown kind.now bytes.now text.items) }
{
    match kind {
        "printed" => printed(alloc, bytes),
        "event" => event_shown(alloc, bytes),
        "shells" => shells_shown(alloc, bytes),
        "sides" => sides_shown(alloc, bytes),
        _ => module_shown(alloc, kind, bytes),
    }
}

fn printed(alloc: Global, text: &[u8]) -> Result<Vec<u8>>
    ensures { IfOk result (λ shown. IsScheduleShown text.now shown.items) }
{
    Ok(print(alloc, &sched_text::read(alloc, text)?)?)
}

fn event_shown(alloc: Global, line: &[u8]) -> Result<Vec<u8>>
    ensures { IfOk result (λ shown. shown.items ≡ line_shown (event_reading line.now)) }
{
    match read_line(alloc, line) {
        Ok(Some(event)) => {
            let events = vec![in alloc; (1, event)]?;
            Ok(print(alloc, &Schedule::from_lines(events))?)
        }
        Ok(None) => Ok(Vec::new(alloc)),
        Err(ScheduleFault::Text { line }) => Ok(format!(in alloc; "line {line}\n")?.into_bytes()),
        Err(ScheduleFault::NoMemory) => bail!("out of memory"),
    }
}
