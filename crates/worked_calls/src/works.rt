//! What the rows themselves show of dependencies, data, nets, inboxes and benches, of calls that the program
//! doesn't make.
use crate::dependencies::upheld_shown;
use crate::given::held_shown;
use crate::inboxes::heard_shown;
use crate::nets::{made_shown, run_shown};
use anyhow::Result;
use blz_outside::MemFiles;
use std::alloc::Global;

/// What is shown for these words over files, None for other words:
///
/// - `upheld TOPOLOGY`: the dependencies of a topology, each with the streams that uphold it.
/// - `heard TOPOLOGY`: what the first instance of a topology makes of some batches, as [`heard_shown`] says.
/// - `held TOPOLOGY DATA`: what each source holds, as [`held_shown`] says.
/// - `made TOPOLOGY DATA`: the schedule of the seed 0, as it is printed.
/// - `placed TOPOLOGY DATA SCHEDULE`: how many records a net keeps after the schedule, and whether it is ended.
/// - `poor TOPOLOGY DATA SCHEDULE`: the same where a shell for modules wants memory at each step.
/// - `emitted TOPOLOGY DATA SCHEDULE`: each message that was emitted, list by list.
pub fn work_shown(
    alloc: Global,
    words: &[String],
    files: &mut MemFiles,
) -> Result<Option<Vec<u8>>> {
    match words {
        [kind, topology] => topology_shown(alloc, kind.as_str(), topology.as_str(), files),
        [kind, topology, given] => {
            data_shown(
                alloc,
                kind.as_str(),
                topology.as_str(),
                given.as_str(),
                files,
            )
        }
        [kind, topology, given, schedule] => {
            let names = (topology.as_str(), given.as_str(), schedule.as_str());
            schedule_shown(alloc, kind.as_str(), names, files)
        }
        _ => Ok(None),
    }
}

// The same for a word and a topology.
fn topology_shown(
    alloc: Global,
    kind: &str,
    topology: &str,
    files: &mut MemFiles,
) -> Result<Option<Vec<u8>>> {
    match kind {
        "upheld" => Ok(Some(upheld_shown(alloc, topology, files)?)),
        "heard" => Ok(Some(heard_shown(alloc, topology, files)?)),
        _ => Ok(None),
    }
}

// The same for a word, a topology and data.
fn data_shown(
    alloc: Global,
    kind: &str,
    topology: &str,
    given: &str,
    files: &mut MemFiles,
) -> Result<Option<Vec<u8>>> {
    match kind {
        "held" => Ok(Some(held_shown(alloc, topology, given, files)?)),
        "made" => Ok(Some(made_shown(alloc, topology, given, files)?)),
        _ => Ok(None),
    }
}

// The same for a word, a topology, data and a schedule.
fn schedule_shown(
    alloc: Global,
    kind: &str,
    names: (&str, &str, &str),
    files: &mut MemFiles,
) -> Result<Option<Vec<u8>>> {
    match kind {
        "placed" | "poor" | "emitted" => Ok(Some(run_shown(alloc, kind, names, files)?)),
        _ => Ok(None),
    }
}
