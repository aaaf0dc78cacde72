//! Rows in the order of some of their columns, to be looked up by their values there.
ghost use Rattle.std.specs.Prelude.{◌≡◌, ◌≤◌, length, IfOk};
ghost use Rattle.std.specs.List.{list_any};
ghost use Rattle.blz_value.specs.Sets.{set_of};
ghost use Rattle.blz_value.specs.Operators.{cells, project_rows};
ghost use Rattle.blz_value.specs.Groups.{with_key};
ghost use Rattle.blz_set.specs.Code.Entry.{rows_of};
ghost use Rattle.blz_set.specs.Code.Index.{HaveKeys, InOrder, has_key, StartsAt, HaveSameRuns};

use crate::entry::Entry;
use blz_value::Record;
use std::alloc::{AllocError, Global};

/// Rows in the order of some columns. Where they tie, they stand as they stood.
#[derive(Drop)]
pub(crate) struct Index<'a> {
    columns: &'a [u32],
    entries: Vec<Entry<'a>>,
    ghost have_keys: { HaveKeys columns.now entries.items },
    ghost in_order: { InOrder columns.now entries.items },
}

impl<'a> Index<'a> {
    /// The index of some rows.
    pub(crate) fn new(
        alloc: Global,
        rows: &'a [Record],
        columns: &'a [u32],
    ) -> Result<Index<'a>, AllocError>
        ensures columns { IfOk result (λ index. index.columns.now ≡ columns.now) }
        ensures rows { IfOk result (λ index. HaveSameRuns columns.now (rows_of index.entries.items) rows.now) }
    {
        let mut entries = Vec::with_capacity(alloc, rows.len())?;
        for row in rows {
            entries.push(Entry::new(row, columns))?;
        }
        entries.sort_by(|a, b| a.compare(columns, b, columns))?;
        Ok(Index { columns, entries })
    }

    // Where the rows begin whose key isn't below that of a row in columns of its own.
    fn start(&self, row: &Record, row_columns: &[u32]) -> usize
        requires { length self.now.columns.now ≡ length row_columns.now }
        ensures bound { result ≤ length self.now.entries.items }
        ensures start { StartsAt self.now.columns.now (cells row_columns.now row.now) self.now.entries.items result }
    {
        let columns = self.columns;
        let wanted = Entry::new(row, row_columns);
        self.entries.as_slice().partition_point(|entry| entry
            .compare(columns, &wanted, row_columns)
            .is_lt())
    }

    /// The rows that have the key of a row in columns of its own.
    pub(crate) fn run(&self, row: &Record, row_columns: &[u32]) -> &[Entry<'a>]
        requires { length self.now.columns.now ≡ length row_columns.now }
        ensures { rows_of result.now ≡ with_key self.now.columns.now (cells row_columns.now row.now) (rows_of self.now.entries.items) }
    {
        let wanted = Entry::new(row, row_columns);
        let (_, rest) = self
            .entries
            .as_slice()
            .split_at(self.start(row, row_columns));
        for (i, entry) in rest.iter().enumerate() {
            if entry.compare(self.columns, &wanted, row_columns).is_ne() {
                let (run, _) = rest.split_at(i);
                return run;
            }
        }
        rest
    }

    /// Whether a row has the key of another in columns of its own.
    pub(crate) fn has_run(&self, row: &Record, row_columns: &[u32]) -> bool
        requires { length self.now.columns.now ≡ length row_columns.now }
        ensures { result ≡ list_any (has_key self.now.columns.now (cells row_columns.now row.now)) (rows_of self.now.entries.items) }
    {
        let wanted = Entry::new(row, row_columns);
        let entries = self.entries.as_slice();
        let start = self.start(row, row_columns);
        start < entries.len()
            && entries[start]
                .compare(self.columns, &wanted, row_columns)
                .is_eq()
    }

    /// One row for each key, in the order of the keys.
    pub(crate) fn firsts(&self, alloc: Global) -> Result<Vec<Entry<'a>>, AllocError>
        ensures { IfOk result (λ firsts. project_rows self.now.columns.now (rows_of firsts.items) ≡ set_of (project_rows self.now.columns.now (rows_of self.now.entries.items))) }
    {
        let entries = self.entries.as_slice();
        let mut firsts = Vec::new(alloc);
        for (i, entry) in entries.iter().enumerate() {
            if i == 0
                || entries[i - 1]
                    .compare(self.columns, entry, self.columns)
                    .is_ne()
            {
                firsts.push(*entry)?;
            }
        }
        Ok(firsts)
    }
}
