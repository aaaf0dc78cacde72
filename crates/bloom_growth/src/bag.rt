//! A set of records that rows enter and leave, each kept with how often it is given.
ghost use Rattle.std.specs.Prelude.{◌≡◌, ◌<◌, ◌+◌, ◌↔◌, ◌∷◌, ◌++◌, [], List, length, IsTrue, OnOk};
ghost use Rattle.blz_value.specs.Members.{Has};
ghost use Rattle.blz_value.specs.Operators.{project_rows};
ghost use Rattle.blz_value.specs.Record.{Row};
ghost use Rattle.blz_value.specs.Sets.{set_of};
ghost use Rattle.blz_set.specs.Answers.{Gives};
ghost use Rattle.blz_set.specs.Missing.{missing_from};
ghost use Rattle.bloom_growth.specs.Counts.{most_given};
ghost use Rattle.bloom_growth.specs.Growth.{Extends};
ghost use Rattle.bloom_growth.specs.Turned.{TurnsInto};

use crate::columns::copy_cells;
use crate::counts::{is_again, take_key};
use crate::grow_set::ROW_LIMIT;
use crate::turn::{Turn, Turning, less};
use blz_set::{RecordSet, SetFault};
use blz_value::Record;
use std::alloc::{AllocError, Global};
use std::collections::BTreeMap;

/// At most 262,144 records, each with how often it is given, in record order.
#[derive(Drop)]
pub struct Bag {
    counts: BTreeMap<Record, u32>,
}

/// The rows that left a bag and those that entered it, where a row may do both: first rows leave, then
/// others enter.
#[derive(Drop)]
pub struct Passing {
    alloc: Global,
    left: Vec<Record>,
    entered: Vec<Record>,
}

impl Passing {
    ghost use Rattle.bloom_growth.specs.Bags.{left_rows, entered_rows, Passed};

    /// Nothing has left or entered.
    pub fn new(alloc: Global) -> Passing
        ensures left { left_rows result ≡ [] }
        ensures entered { entered_rows result ≡ [] }
    {
        Passing {
            alloc,
            left: Vec::new(alloc),
            entered: Vec::new(alloc),
        }
    }

    /// What has changed in the end: a row that left and entered again hasn't.
    pub fn turn(self) -> Result<Turn, SetFault>
        ensures { (old mid new : List Row) → Passed old mid new self → TurnsInto old new result }
    {
        let alloc = self.alloc;
        let left = RecordSet::from_rows(self.left)?;
        let entered = RecordSet::from_rows(self.entered)?;
        if left.len() == 0 || entered.len() == 0 {
            return Ok(Turn {
                more: entered,
                gone: left,
            });
        }
        let more = less(alloc, &entered, &left)?;
        let gone = less(alloc, &left, &entered)?;
        Ok(Turn { more, gone })
    }
}

impl Bag {
    ghost use Rattle.bloom_growth.specs.Bags.{IsBag, BecomesBag, ColumnsTurn, left_rows, entered_rows};

    /// The empty bag.
    pub fn new(alloc: Global) -> Bag
        ensures { IsBag [] result }
    {
        Bag {
            counts: BTreeMap::new(alloc),
        }
    }

    /// The number of different rows.
    pub fn len(&self) -> usize
        ensures { (rows : List Row) → IsBag rows self.now → result ≡ length (set_of rows) }
    {
        self.counts.len()
    }

    /// Whether a row is given.
    pub fn contains(&self, row: &Record) -> bool
        ensures { (rows : List Row) → IsBag rows self.now → IsTrue result ↔ Has row.now rows }
    {
        self.counts.contains_key(row)
    }

    /// A row is given once less. After want of memory what left isn't known.
    pub fn take_out(&mut self, row: &Record, passing: &mut Passing) -> Result<(), AllocError>
        ensures bag { (rows : List Row) → IsBag (row.now ∷ rows) self.old → IsBag rows self.new }
        ensures left { OnOk result ((old rows : List Row) → IsBag (row.now ∷ rows) self.old → Extends (set_of (row.now ∷ rows)) old (left_rows passing.old) → Extends (set_of rows) old (left_rows passing.new)) }
        ensures entered { entered_rows passing.new ≡ entered_rows passing.old }
    {
        match take_key(&mut self.counts, row) {
            Some(taken) => {
                passing.left.push(taken)?;
                Ok(())
            }
            None => Ok(()),
        }
    }

    /// A row is given once more. Rows enter after those that leave, so that there are never more than
    /// in the end. After a fault what entered isn't known.
    pub fn put_in(&mut self, row: Record, passing: &mut Passing) -> Result<(), SetFault>
        ensures bag { (rows : List Row) → length rows < most_given → IsBag rows self.old → BecomesBag (row ∷ rows) self.new result }
        ensures entered { OnOk result ((mid rows : List Row) → IsBag rows self.old → Extends mid (set_of rows) (entered_rows passing.old) → Extends mid (set_of (row ∷ rows)) (entered_rows passing.new)) }
        ensures left { left_rows passing.new ≡ left_rows passing.old }
    {
        if is_again(&mut self.counts, &row) {
            return Ok(());
        }
        if self.counts.len() >= ROW_LIMIT {
            return Err(SetFault::TooManyRows);
        }
        passing.entered.push(row.copy()?)?;
        let _ = self.counts.insert(row, 1)?;
        Ok(())
    }

    // Columns of rows are given once less each.
    fn take_columns(
        &mut self,
        alloc: Global,
        gone: &RecordSet,
        columns: &[u32],
        passing: &mut Passing,
    ) -> Result<(), AllocError>
        ensures bag { OnOk result ((rows : List Row) → IsBag (project_rows columns.now gone.now ++ rows) self.old → IsBag rows self.new) }
        ensures left { OnOk result ((old rows : List Row) → IsBag (project_rows columns.now gone.now ++ rows) self.old → Extends (set_of (project_rows columns.now gone.now ++ rows)) old (left_rows passing.old) → Extends (set_of rows) old (left_rows passing.new)) }
        ensures entered { entered_rows passing.new ≡ entered_rows passing.old }
    {
        for row in gone.rows() {
            let cells = copy_cells(alloc, row, columns)?;
            self.take_out(&cells, passing)?;
        }
        Ok(())
    }

    // Columns of rows are given once more each.
    fn put_columns(
        &mut self,
        alloc: Global,
        more: &RecordSet,
        columns: &[u32],
        passing: &mut Passing,
    ) -> Result<(), SetFault>
        ensures bag { (rows : List Row) → length rows + length more.now < most_given → IsBag rows self.old → BecomesBag (project_rows columns.now more.now ++ rows) self.new result }
        ensures entered { OnOk result ((mid rows : List Row) → length rows + length more.now < most_given → IsBag rows self.old → Extends mid (set_of rows) (entered_rows passing.old) → Extends mid (set_of (project_rows columns.now more.now ++ rows)) (entered_rows passing.new)) }
        ensures left { left_rows passing.new ≡ left_rows passing.old }
    {
        for row in more.rows() {
            self.put_in(copy_cells(alloc, row, columns)?, passing)?;
        }
        Ok(())
    }

    /// What some columns of a part's rows become where the part changes, of a bag that has these columns
    /// of each of its rows. After a fault it may have others.
    pub fn turn_columns(
        &mut self,
        alloc: Global,
        part: Turning<'_>,
        columns: &[u32],
    ) -> Result<Turn, SetFault>
        ensures bag { OnOk result ((old new : List Row) → ColumnsTurn columns.now old new part.entry.more.now part.entry.gone.now self.old → IsBag (project_rows columns.now new) self.new) }
        ensures rows { (old new : List Row) → ColumnsTurn columns.now old new part.entry.more.now part.entry.gone.now self.old → TurnsInto (set_of (project_rows columns.now old)) (set_of (project_rows columns.now new)) result }
    {
        let mut passing = Passing::new(alloc);
        self.take_columns(alloc, part.gone, columns, &mut passing)?;
        self.put_columns(alloc, part.more, columns, &mut passing)?;
        passing.turn()
    }

    /// The rows as a set of its own.
    pub fn to_set(&self, alloc: Global) -> Result<RecordSet, SetFault>
        ensures { (rows : List Row) → IsBag rows self.now → Gives (set_of rows) result }
    {
        let mut rows = Vec::new(alloc);
        for row in self.counts.keys() {
            rows.push(row.copy()?)?;
        }
        RecordSet::from_rows(rows)
    }

    /// How many rows of a set aren't given.
    pub fn missing(&self, set: &RecordSet) -> usize
        ensures { (rows : List Row) → IsBag rows self.now → result ≡ length (missing_from rows set.now) }
    {
        let mut count = 0;
        for row in set.rows() {
            if !self.contains(row) {
                count += 1;
            }
        }
        count
    }
}
