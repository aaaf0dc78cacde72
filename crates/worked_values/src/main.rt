//! Worked values of the lowest libraries: attributes, pools, records, sets, draws, and the ends of files and
//! text.
//! Each case writes a line, and what all of them have to write stands in the file `stdout` beside.
#![tactic(auto)]

mod attributes;
mod draws;
mod ends;
mod lines;
mod pools;
mod records;
mod sets;
mod types;

use crate::lines::Lines;
use anyhow::{Result, bail};
use blz_outside::{RealFiles, RealSink, Sink};
use std::alloc::{AllocError, Global};
use std::fs;

// A file of the system that is written here, read and removed.
const FILE: &str = "worked_values.bytes";

// So many bytes that a read of them takes more than one part.
fn many_bytes(alloc: Global) -> Result<Vec<u8>, AllocError> {
    let mut bytes = Vec::new(alloc);
    for number in 0..20_000u32 {
        bytes.push((number % 251) as u8)?;
    }
    Ok(bytes)
}

// The reads of a real file: at its length, one byte below, and where it is gone, which alone is a fault.
fn show_real_files(rt: &HostRuntime, lines: &mut Lines) -> Result<()> {
    let bytes = many_bytes(lines.alloc())?;
    let mut files = RealFiles::new(rt.clone()?);
    fs::write(rt, FILE, bytes.as_slice())?;
    ends::show_read(lines, &mut files, FILE, 20_000)?;
    ends::show_read(lines, &mut files, FILE, 19_999)?;
    ends::show_faults(lines, files.faults())?;
    fs::remove_file(rt, FILE)?;
    ends::show_read(lines, &mut files, FILE, 20_000)?;
    Ok(ends::show_faults(lines, files.faults())?)
}

// Three bytes for standard output, which stand in front of all lines, since these are written at the end.
fn show_real_sink(rt: &HostRuntime, lines: &mut Lines) -> Result<()> {
    let mut sink = RealSink::new(rt.clone()?);
    lines.test("put", sink.put(b"ok\n").is_ok())?;
    Ok(ends::show_faults(lines, sink.faults())?)
}

fn show_all(rt: &HostRuntime, lines: &mut Lines) -> Result<()> {
    types::name_all();
    attributes::show(lines)?;
    records::show(lines)?;
    sets::show(lines)?;
    pools::show(lines)?;
    draws::show(lines)?;
    ends::show(lines)?;
    show_real_files(rt, lines)?;
    show_real_sink(rt, lines)
}

fn main(rt: HostRuntime) -> Result<()> {
    let mut lines = Lines::new(rt.alloc());
    show_all(&rt, &mut lines)?;
    let mut out = RealSink::new(rt);
    if out.put(lines.text()).is_err() {
        bail!("standard output takes no more");
    }
    Ok(())
}
