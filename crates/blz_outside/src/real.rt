//! The real files and standard output. They tell no bytes and no room, and aren't steady.
ghost use Rattle.std.specs.Prelude.{◌≡◌, ◌<◌, ◌≤◌, ◌+◌, ℕ, List, [], None, false, IfSome, OnOk, OnErr, length, take, vec_len};
ghost use Rattle.std.specs.Io.KnownBytes.{Consumes, Appends};
ghost use Rattle.blz_outside.specs.Files.{OnWhole, OnMore};

use crate::counts::raise;
use crate::files::{End, Files, ReadFail};
use crate::sink::{Failed, Sink};
use std::io::{Read, Write};
use std::marker::Model;
use std::{fs, io, rt};

// How many bytes one read asks for at most.
const CHUNK: usize = 8192;

/// The files of the system, by their paths.
#[derive(Drop)]
pub struct RealFiles<R> {
    runtime: R,
    faults: u64,
}

impl<R> Model for RealFiles<R> {
    ghost use Rattle.blz_outside.specs.RealEnd.{RealEndView};

    ghost Value = { RealEndView };

    ghost view = { λ files. record { faults = files.faults } };
}

impl<R: rt::Files> RealFiles<R> {
    /// The files that this runtime reads.
    pub fn new(runtime: R) -> RealFiles<R>
        ensures { result ≡ record { faults = 0 } }
    {
        RealFiles { runtime, faults: 0 }
    }

    /// How many reads failed, up to the last value of a count.
    pub fn faults(&self) -> u64
        ensures { result ≡ self.now.faults }
    {
        self.faults
    }
}

// Reads the rest of the file, or at most one byte more than the limit. A read that takes nothing is
// the end of the file, and an error of any kind ends the read.
fn read_all<F: Read>(file: &mut F, most: usize, into: &mut Vec<u8>) -> Result<End, ReadFail>
    ensures whole_bytes { OnWhole result
        (IfSome (F.remaining file.old) (λ bytes. into.new.items ≡ bytes)) }
    ensures whole_within { OnWhole result (vec_len into.new ≤ most) }
    ensures more_empty { OnMore result (into.new.items ≡ []) }
    ensures more_longer { OnMore result
        (IfSome (F.remaining file.old) (λ bytes. most < length bytes)) }
    ensures taken { (bytes : List ℕ) × (length bytes ≤ most + 1) ×
        Consumes (F.remaining file.old) (F.remaining file.new) bytes }
{
    let mut chunk = [0u8; CHUNK];
    into.clear();
    while into.len() <= most {
        let wanted = (most - into.len()).saturating_add(1).min(CHUNK);
        match file.read(&mut chunk[..wanted]) {
            Err(_) => return Err(ReadFail::Failed),
            Ok(0) => return Ok(End::Whole),
            Ok(count) => into.extend_from_slice(&chunk[..count])?,
        }
    }
    into.clear();
    Ok(End::More)
}

// Reads the file of this name, which fails where it can't be opened.
fn read_named<R: rt::Files>(
    runtime: &R,
    name: &str,
    most: usize,
    into: &mut Vec<u8>,
) -> Result<End, ReadFail>
    ensures whole_within { OnWhole result (vec_len into.new ≤ most) }
    ensures more_empty { OnMore result (into.new.items ≡ []) }
{
    match fs::open(runtime, name) {
        Ok(mut file) => read_all(&mut file, most, into),
        Err(_) => Err(ReadFail::Failed),
    }
}

impl<R: rt::Files> Files for RealFiles<R> {
    ghost held = { λ _. None };

    ghost steady = { λ _. false };

    ghost faults = { λ files. files.faults };

    ghost steady_is_told = { λ _ never. never };

    fn read(&mut self, name: &str, most: usize, into: &mut Vec<u8>) -> Result<End, ReadFail> {
        match read_named(&self.runtime, name, most, into) {
            Ok(end) => Ok(end),
            Err(ReadFail::NoMemory) => Err(ReadFail::NoMemory),
            Err(ReadFail::Failed) => {
                self.faults = raise(self.faults);
                Err(ReadFail::Failed)
            }
        }
    }
}

/// Standard output.
#[derive(Drop)]
pub struct RealSink<R> {
    runtime: R,
    faults: u64,
}

impl<R> Model for RealSink<R> {
    ghost use Rattle.blz_outside.specs.RealEnd.{RealEndView};

    ghost Value = { RealEndView };

    ghost view = { λ sink. record { faults = sink.faults } };
}

impl<R: Print> RealSink<R> {
    /// The standard output of this runtime.
    pub fn new(runtime: R) -> RealSink<R>
        ensures { result ≡ record { faults = 0 } }
    {
        RealSink { runtime, faults: 0 }
    }

    /// How many writes failed, up to the last value of a count.
    pub fn faults(&self) -> u64
        ensures { result ≡ self.now.faults }
    {
        self.faults
    }
}

// Writes the whole piece. A write that takes nothing is a fault, and so is an error of any kind.
fn write_all<W: Write>(writer: &mut W, piece: &[u8]) -> Result<(), Failed>
    ensures ok_grows { OnOk result
        (Appends (W.contents writer.old) (W.contents writer.new) piece.now) }
    ensures failed_front { OnErr result ((count : ℕ) ×
        Appends (W.contents writer.old) (W.contents writer.new) (take count piece.now)) }
{
    let mut taken = 0;
    while taken < piece.len() {
        match writer.write(&piece[taken..]) {
            Err(_) | Ok(0) => return Err(Failed),
            Ok(count) => taken += count,
        }
    }
    Ok(())
}

impl<R: Print> Sink for RealSink<R> {
    ghost written = { λ _. None };

    ghost room = { λ _. None };

    ghost faults = { λ sink. sink.faults };

    fn put(&mut self, piece: &[u8]) -> Result<(), Failed> {
        let outcome = write_all(&mut io::writer(&self.runtime), piece);
        if outcome.is_err() {
            self.faults = raise(self.faults);
        }
        outcome
    }
}
