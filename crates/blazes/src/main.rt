//! The program: the real files, standard output, a bench of shells, and the one call over them.
#![tactic(auto)]

use blazes_cli::blazes;
use bloom_eval::Component;
use bloom_index::IndexShell;
use blz_boxes::{LatestShell, NumberShell, SplitShell};
use blz_outside::{RealFiles, RealSink};
use command_checks::Status;
use std::alloc::AllocError;
use std::env::Env;
use std::process::ExitCode;
use std::{env, io};

// How many shells of the bench are for modules: as many as a topology can have instances. A step of one
// costs what changes.
const MODULE_SHELLS: usize = 64;

// How many are for each stock body.
const STOCK_SHELLS: usize = 16;

// The words after the program's name. A word that isn't UTF-8 is an error.
fn words(rt: &(impl Env + AllocGlobal)) -> io::Result<Vec<String>> {
    let mut arguments = env::args(rt)?;
    let _program = arguments.next();
    let mut words = Vec::new(rt.alloc());
    for word in arguments {
        words.push(word)?;
    }
    Ok(words)
}

// Words that can't be read as text match no command, and so do none at all. The bench is made here,
// where it is lent to the call.
fn run(rt: &HostRuntime) -> Result<Status, AllocError> {
    let alloc = rt.alloc();
    let words = match words(rt) {
        Ok(words) => words,
        Err(fault) if fault.kind() == io::ErrorKind::OutOfMemory => return Err(AllocError),
        Err(_) => Vec::new(alloc),
    };
    let mut files = RealFiles::new(rt.clone()?);
    let mut out = RealSink::new(rt.clone()?);
    let mut bench: Vec<Box<dyn Component>> = Vec::new(alloc);
    for number in 0..MODULE_SHELLS {
        bench.push(Box::new(alloc, IndexShell::new(alloc))?)?;
        if number < STOCK_SHELLS {
            bench.push(Box::new(alloc, SplitShell::new(alloc))?)?;
            bench.push(Box::new(alloc, LatestShell::new(alloc))?)?;
            bench.push(Box::new(alloc, NumberShell::new(alloc))?)?;
        }
    }
    Ok(blazes(alloc, &words, &mut files, &mut out, &mut bench))
}

fn main(rt: HostRuntime) -> ExitCode {
    let status = run(&rt).unwrap_or(Status::NoMemory);
    ExitCode::from(status.code())
}
