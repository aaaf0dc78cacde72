//! The lines that are written, one for each case.
use blz_value::{Value, write_value};
use std::alloc::{AllocError, Global};

/// The lines so far.
#[derive(Drop)]
pub(crate) struct Lines {
    alloc: Global,
    text: Vec<u8>,
}

impl Lines {
    pub(crate) fn new(alloc: Global) -> Lines {
        Lines {
            alloc,
            text: Vec::new(alloc),
        }
    }

    pub(crate) fn alloc(&self) -> Global {
        self.alloc
    }

    pub(crate) fn text(&self) -> &[u8] {
        &self.text
    }

    /// A line: the name of a case, and what it shows.
    pub(crate) fn push(&mut self, name: &str, shown: &[u8]) -> Result<(), AllocError> {
        self.text.extend_from_slice(name.as_bytes())?;
        self.text.extend_from_slice(b": ")?;
        self.text.extend_from_slice(shown)?;
        Ok(self.text.push(b'\n')?)
    }

    /// A line that shows a number.
    pub(crate) fn number(&mut self, name: &str, number: i64) -> Result<(), AllocError> {
        let mut shown = Vec::new(self.alloc);
        write_value(&Value::Int(number), &mut shown)?;
        self.push(name, &shown)
    }

    /// A line that shows how many there are.
    pub(crate) fn count(&mut self, name: &str, count: usize) -> Result<(), AllocError> {
        self.number(name, i64::try_from(count).unwrap_or(i64::MAX))
    }

    /// A line that shows whether something is so.
    pub(crate) fn test(&mut self, name: &str, is_so: bool) -> Result<(), AllocError> {
        self.push(name, if is_so { b"yes" } else { b"no" })
    }
}
