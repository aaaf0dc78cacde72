//! The text that is shown.
use anyhow::{Result, ensure};
use blz_set::RecordSet;
use blz_value::{Record, write_record};
use std::alloc::{AllocError, Global};

/// A text that grows. Where memory was wanting for a part, it is refused once it is asked for, so that no part
/// needs an answer of its own.
#[derive(Drop)]
pub(crate) struct Text {
    bytes: Vec<u8>,
    is_whole: bool,
}

impl Text {
    /// The text without a part.
    pub(crate) fn new(alloc: Global) -> Text {
        Text {
            bytes: Vec::new(alloc),
            is_whole: true,
        }
    }

    /// Says that memory was wanting for a part.
    pub(crate) fn lose(&mut self) {
        self.is_whole = false;
    }

    /// Adds some bytes.
    pub(crate) fn add(&mut self, bytes: &[u8]) {
        if self.bytes.extend_from_slice(bytes).is_err() {
            self.lose();
        }
    }

    /// Adds what was formatted.
    pub(crate) fn add_text(&mut self, text: Result<String, AllocError>) {
        match text {
            Ok(text) => self.add(text.as_bytes()),
            Err(_) => self.lose(),
        }
    }

    /// Adds a record.
    pub(crate) fn add_record(&mut self, row: &Record) {
        if write_record(row, &mut self.bytes).is_err() {
            self.lose();
        }
    }

    // Adds some records, each behind a blank.
    fn add_rows(&mut self, rows: &[Record]) {
        for row in rows {
            self.add(b" ");
            self.add_record(row);
        }
    }

    /// Adds a line with a word and some records.
    pub(crate) fn add_line(&mut self, word: &str, rows: &[Record]) {
        self.add(word.as_bytes());
        self.add_rows(rows);
        self.add(b"\n");
    }

    /// Adds a line with a word and the records of some sets.
    pub(crate) fn add_sets(&mut self, word: &str, sets: &[RecordSet]) {
        self.add(word.as_bytes());
        for rows in sets {
            self.add_rows(rows.rows());
        }
        self.add(b"\n");
    }

    /// Its bytes.
    pub(crate) fn into_bytes(self) -> Result<Vec<u8>> {
        let Text { bytes, is_whole } = self;
        ensure!(is_whole, "out of memory");
        Ok(bytes)
    }
}
