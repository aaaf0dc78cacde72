//! Reads and writes at the ends, in memory and real.
use crate::lines::Lines;
use blz_outside::{End, Files, MemFiles, MemSink, ReadFail, Sink};
use std::alloc::AllocError;

/// What a read answers, and how many bytes there are of a whole file.
pub(crate) fn show_read<F: Files>(
    lines: &mut Lines,
    files: &mut F,
    name: &str,
    most: usize,
) -> Result<(), AllocError> {
    let mut into = Vec::new(lines.alloc());
    match files.read(name, most, &mut into) {
        Ok(End::Whole) => lines.count("whole", into.len()),
        Ok(End::More) => lines.push("more", name.as_bytes()),
        Err(ReadFail::Failed) => lines.push("failed", name.as_bytes()),
        Err(ReadFail::NoMemory) => Err(AllocError),
    }
}

/// How many faults an end counted.
pub(crate) fn show_faults(lines: &mut Lines, faults: u64) -> Result<(), AllocError> {
    lines.number("faults", i64::try_from(faults).unwrap_or(i64::MAX))
}

// Files in memory, of which the first with a name counts, and whose second read fails.
fn mem_files(lines: &Lines) -> Result<MemFiles, AllocError> {
    let alloc = lines.alloc();
    let mut files = Vec::new(alloc);
    for (name, bytes) in [("a", "abc"), ("empty", ""), ("a", "later")] {
        let name = String::from_str(alloc, name)?;
        files.push((name, bytes.as_bytes().to_vec(alloc)?))?;
    }
    Ok(MemFiles::new(files, [2].to_vec(alloc)?))
}

fn show_mem_files(lines: &mut Lines) -> Result<(), AllocError> {
    let mut files = mem_files(lines)?;
    for (name, most) in [
        ("a", 3),
        ("a", 3),
        ("a", 2),
        ("a", 4),
        ("empty", 0),
        ("missing", 3),
    ] {
        show_read(lines, &mut files, name, most)?;
    }
    Ok(())
}

// A piece behind two bytes, where there is room for five.
fn show_put(lines: &mut Lines, piece: &str) -> Result<(), AllocError> {
    let mut sink = MemSink::new(lines.alloc(), 5)?;
    lines.test("put", sink.put(b"ab").is_ok())?;
    lines.test("put", sink.put(piece.as_bytes()).is_ok())?;
    lines.push("kept", sink.bytes())
}

/// Shows the ends in memory.
pub(crate) fn show(lines: &mut Lines) -> Result<(), AllocError> {
    show_mem_files(lines)?;
    for piece in ["", "cd", "cde", "cdef"] {
        show_put(lines, piece)?;
    }
    Ok(())
}
