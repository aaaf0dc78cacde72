//! What the program leaves in a bench of several shells.
ghost use Rattle.std.specs.Prelude.{◌≡◌, Some, true, IfOk, IsTrue, map, string_bytes};
ghost use Rattle.blz_outside.specs.MemFiles.{bytes_at};
ghost use Rattle.blazes_words.specs.Requests.{files_shown};
ghost use Rattle.blazes_words.specs.Words.{Asked, request_of};
ghost use Rattle.worked_calls.specs.Told.{told_of};
ghost use Rattle.worked_rows.specs.Runs.{HasOneTable, RunsOneTable, LeavesOneTable};

use anyhow::{Result, bail, ensure};
use blazes_cli::{Status, blazes};
use blazes_words::{Request, RunFiles, request_of};
use blz_boxes::{Component, LatestShell, NumberShell, PlainShell, SplitShell};
use blz_outside::{MemFiles, MemSink};
use std::alloc::Global;
use topo_types::Valid;
use worked_calls::{bytes_in, show_kept, valid_of};

// The most bytes that the program writes.
const TEXT_LIMIT: usize = 65_536;

/// For `run TOPOLOGY DATA SCHEDULE` what the last shell of a bench of six keeps in its first table, once the
/// program was asked so over files; None for other words. The topology has one instance with one table, and
/// no module.
pub(crate) fn run_shown(
    alloc: Global,
    words: &[String],
    files: &mut MemFiles,
) -> Result<Option<Vec<u8>>> {
    match words {
        [kind, _, _, _] if kind.as_str() == "run" => Ok(Some(kept_shown(alloc, words, files)?)),
        _ => Ok(None),
    }
}

// What the last shell of a bench keeps in its first table after the run for which words ask.
fn kept_shown(alloc: Global, words: &[String], files: &mut MemFiles) -> Result<Vec<u8>> {
    let mut files = files_of_run(alloc, words, files)?;
    ensure!(
        runs_one_table(alloc, words, &mut files)?,
        "the topology has one instance with one table"
    );
    let mut bench: Vec<Box<dyn Component>> = Vec::new(alloc);
    bench.push(Box::new(alloc, LatestShell::new(alloc))?)?;
    bench.push(Box::new(alloc, PlainShell::new(alloc))?)?;
    bench.push(Box::new(alloc, LatestShell::new(alloc))?)?;
    bench.push(Box::new(alloc, SplitShell::new(alloc))?)?;
    bench.push(Box::new(alloc, NumberShell::new(alloc))?)?;
    bench.push(Box::new(alloc, LatestShell::new(alloc))?)?;
    let mut shown = Vec::new(alloc);
    left_shown(alloc, words, &mut files, &mut bench, &mut shown)?;
    Ok(shown)
}

// The files of the run for which words ask, of which no read is to fail.
fn files_of_run(alloc: Global, words: &[String], files: &mut MemFiles) -> Result<MemFiles>
    ensures { IfOk result (λ files. IsTrue (told_of files).steady) }
{
    let names = run_files(alloc, words)?;
    let mut held = Vec::new(alloc);
    for name in [names.topology, names.given, names.schedule] {
        held.push((
            String::from_str(alloc, name)?,
            bytes_in(alloc, name, files)?,
        ))?;
    }
    Ok(MemFiles::new(held, Vec::new(alloc)))
}

// The names of the files of the run for which words ask.
fn run_files(alloc: Global, words: &[String]) -> Result<RunFiles<'_>>
    ensures { IfOk result (λ names. request_of (map string_bytes words.entry.now) ≡ Some (Asked.run (files_shown names))) }
{
    match request_of(alloc, words)? {
        Some(Request::Run(names)) => Ok(names),
        _ => bail!("the words ask for no run"),
    }
}

// Whether a topology has one instance with one table.
#[tactic(auto, using(sched_net::proofs::TakingLemmas::stock_of))]
fn has_one_table(valid: &Valid) -> bool
    ensures { result ≡ true → HasOneTable valid.now.view }
{
    valid.known();
    if valid.component_count() != 1 || valid.replicas(0) != 1 {
        return false;
    }
    match valid.program(0) {
        Some(program) => program.table_count() == 1,
        None => false,
    }
}

// Whether words ask for a run of a topology that has one instance with one table.
fn runs_one_table(alloc: Global, words: &[String], files: &mut MemFiles) -> Result<bool>
    requires { IsTrue (told_of files.old).steady }
    ensures steady { IfOk result (λ one. IsTrue (told_of files.new).steady) }
    ensures runs { IfOk result (λ one. one ≡ true → RunsOneTable (bytes_at files.new.files) (map string_bytes words.now)) }
{
    let names = run_files(alloc, words)?;
    let valid = valid_of(alloc, names.topology, files)?;
    Ok(has_one_table(&valid))
}

// Adds what the last shell of a bench keeps in its first table after a run.
fn left_shown(
    alloc: Global,
    words: &[String],
    files: &mut MemFiles,
    bench: &mut Vec<Box<dyn Component>>,
    shown: &mut Vec<u8>,
) -> Result<()>
    requires steady { IsTrue (told_of files.old).steady }
    requires runs { RunsOneTable (bytes_at files.old.files) (map string_bytes words.now) }
{
    let mut out = MemSink::new(alloc, TEXT_LIMIT)?;
    match blazes(alloc, words, files, &mut out, bench) {
        Status::Done => last_shown(alloc, bench, shown),
        Status::Incomplete => last_shown(alloc, bench, shown),
        status => bail!("the run ended as {status:?}"),
    }
}

// Adds what the last of some shells keeps in its first table.
fn last_shown(alloc: Global, shells: &[Box<dyn Component>], shown: &mut Vec<u8>) -> Result<()>
    requires { LeavesOneTable (map (λ b. program b) shells.now) (map (λ b. kept b) shells.now) }
{
    match shells.last() {
        Some(shell) => show_kept(alloc, shell, shown),
        None => Ok(()),
    }
}
