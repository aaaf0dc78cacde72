//! What a part or a collection has in a step: all its rows, or what changes of it where it is kept.
ghost use Rattle.std.specs.Prelude.{◌≡◌, ◌≤◌, ◌<◌, ◌++◌, ◌∷◌, [], Err, IfOk, OnOk, length, true, false};
ghost use Rattle.blz_set.specs.declared.fault.SetFault.TheVariants.{TooManyRows};
ghost use Rattle.blz_set.specs.Answers.{Becomes};
ghost use Rattle.blz_set.specs.RecordSet.{IsRecordSet, row_limit};
ghost use Rattle.blz_value.specs.Sets.{set_of};
ghost use Rattle.bloom_parts.specs.Code.Settled.{AreSettled};

use bloom_growth::{Turn, Turning};
use blz_set::{RecordSet, SetFault};
use blz_value::Record;
use std::alloc::{AllocError, Global};
use std::{mem, slice};

/// A set that is lent or owned, or the one record that arrived.
#[derive(Drop)]
pub enum Rows<'a, 'r> {
    Lent(&'a RecordSet),
    Own(RecordSet),
    One(&'r Record),
}

/// All rows of a part, or of a part that is kept those that come and those that go.
#[derive(Drop)]
pub struct Change<'a, 'r> {
    pub kept: bool,
    pub rows: Rows<'a, 'r>,
    pub gone: Rows<'a, 'r>,
}

/// The set of one row.
pub fn one_row(alloc: Global, row: &Record) -> Result<RecordSet, AllocError>
    ensures { IfOk result (λ set. set ≡ row.now ∷ []) }
{
    let mut set = RecordSet::new(alloc);
    match set.insert(row.copy()?) {
        Ok(_) => Ok(set),
        Err(SetFault::NoMemory) => Err(AllocError),
        Err(SetFault::TooManyRows) => unreachable!(),
    }
}

/// Adds the rows of a set to another, as `take_in` does. A set that has none becomes this one.
pub(crate) fn put_into(set: RecordSet, into: &mut RecordSet) -> Result<(), SetFault>
    ensures { Becomes into.old (set_of (into.old ++ set)) into.new result }
{
    // for the proof alone: what holds of each set
    let _rows = set.rows();
    if into.len() > 0 {
        return into.take_in(set);
    }
    *into = set;
    Ok(())
}

// Adds a copy of a row to a set.
fn insert_copy(row: &Record, into: &mut RecordSet) -> Result<(), SetFault>
    ensures { Becomes into.old (set_of (into.old ++ row.now ∷ [])) into.new result }
{
    let _ = into.insert(row.copy()?)?;
    Ok(())
}

impl<'r> Rows<'_, 'r> {
    ghost use Rattle.bloom_parts.specs.Turns.{rows_in};
    ghost use Rattle.bloom_parts.specs.Code.Settled.{IsSet};

    /// The rows in record order.
    pub fn as_rows(&self) -> &[Record]
        ensures { result.now ≡ rows_in self.now }
    {
        match self {
            Rows::Lent(set) => set.rows(),
            Rows::Own(set) => set.rows(),
            Rows::One(row) => slice::from_ref(*row),
        }
    }

    /// What holds of each such rows: they are a set. The call does nothing.
    pub fn known(&self)
        ensures { IsRecordSet (rows_in self.now) }
    {
        match self {
            Rows::Lent(set) => {
                let _rows = set.rows();
            }
            Rows::Own(set) => {
                let _rows = set.rows();
            }
            Rows::One(_) => {}
        }
    }

    /// The set.
    pub(crate) fn as_set(&self) -> &RecordSet
        requires { IsSet self.now }
        ensures rows { result.now ≡ rows_in self.now }
        ensures set { IsRecordSet (rows_in self.now) }
    {
        let set = match self {
            Rows::Lent(set) => *set,
            Rows::Own(set) => set,
            Rows::One(_) => unreachable!(),
        };
        let _rows = set.rows();
        set
    }

    /// The same rows, lent.
    pub(crate) fn lent(&self) -> Rows<'_, 'r>
        ensures { rows_in result ≡ rows_in self.now }
    {
        match self {
            Rows::Lent(set) => Rows::Lent(*set),
            Rows::Own(set) => Rows::Lent(set),
            Rows::One(row) => Rows::One(*row),
        }
    }
}

impl<'a, 'r> Rows<'a, 'r> {
    ghost use Rattle.bloom_parts.specs.Turns.{rows_in};
    ghost use Rattle.bloom_parts.specs.Code.Settled.{IsSet};

    // Adds the rows to a set, as `union_in` does.
    fn add_to_set(self, into: &mut RecordSet) -> Result<(), SetFault>
        ensures { Becomes into.old (set_of (into.old ++ rows_in self.entry)) into.new result }
    {
        match self {
            Rows::Lent(set) => into.union_in(set),
            Rows::Own(set) => into.take_in(set),
            Rows::One(row) => insert_copy(row, into),
        }
    }

    /// The set itself, which is copied where it is lent.
    pub fn into_set(self, alloc: Global) -> Result<RecordSet, AllocError>
        ensures { IfOk result (λ set. set ≡ rows_in self.entry) }
    {
        match self {
            Rows::Lent(set) => set.copy(),
            Rows::Own(set) => Ok(set),
            Rows::One(row) => one_row(alloc, row),
        }
    }

    /// The same rows as a set, lent or owned.
    pub(crate) fn settled(self, alloc: Global) -> Result<Rows<'a, 'r>, AllocError>
        ensures rows { IfOk result (λ settled. rows_in settled ≡ rows_in self.entry) }
        ensures set { IfOk result IsSet }
    {
        match self {
            Rows::Lent(set) => Ok(Rows::Lent(set)),
            Rows::Own(set) => Ok(Rows::Own(set)),
            Rows::One(row) => Ok(Rows::Own(one_row(alloc, row)?)),
        }
    }

    /// The same rows, of which a set that is lent is copied.
    pub fn lasting(self) -> Result<Rows<'r, 'r>, AllocError>
        ensures { IfOk result (λ lasting. rows_in lasting ≡ rows_in self.entry) }
    {
        match self {
            Rows::Lent(set) => Ok(Rows::Own(set.copy()?)),
            Rows::Own(set) => Ok(Rows::Own(set)),
            Rows::One(row) => Ok(Rows::One(row)),
        }
    }

    /// Adds the rows to others. Where there are none, they become these. After a fault nothing is said of
    /// the others.
    pub fn put_onto(self, alloc: Global, into: &mut Rows<'a, 'r>) -> Result<(), SetFault>
        ensures rows { OnOk result (rows_in into.new ≡ set_of (rows_in into.old ++ rows_in self.entry)) }
        ensures few { OnOk result (length (set_of (rows_in into.old ++ rows_in self.entry)) ≤ row_limit) }
        ensures too_many { result ≡ Err TooManyRows → row_limit < length (set_of (rows_in into.old ++ rows_in self.entry)) }
    {
        // for the proof alone: what holds of each set
        self.known();
        if into.as_rows().is_empty() {
            *into = self;
            return Ok(());
        }
        let mut set = mem::replace(into, Rows::Own(RecordSet::new(alloc))).into_set(alloc)?;
        self.add_to_set(&mut set)?;
        *into = Rows::Own(set);
        Ok(())
    }
}

impl<'a, 'r> Change<'a, 'r> {
    ghost use Rattle.bloom_parts.specs.Turns.{rows_in};

    /// All rows of a part that isn't kept.
    pub fn all(alloc: Global, rows: Rows<'a, 'r>) -> Change<'a, 'r>
        ensures kept { result.kept ≡ false }
        ensures rows { rows_in result.rows ≡ rows_in rows.entry }
        ensures gone { rows_in result.gone ≡ [] }
    {
        Change {
            kept: false,
            rows,
            gone: Rows::Own(RecordSet::new(alloc)),
        }
    }

    /// All rows of a part that isn't kept, as a set.
    pub fn of_set(alloc: Global, set: RecordSet) -> Change<'a, 'r>
        ensures kept { result.kept ≡ false }
        ensures rows { rows_in result.rows ≡ set }
        ensures gone { rows_in result.gone ≡ [] }
    {
        Change::all(alloc, Rows::Own(set))
    }

    /// What a part that is kept gets and loses.
    pub fn kept(rows: Rows<'a, 'r>, gone: Rows<'a, 'r>) -> Change<'a, 'r>
        ensures kept { result.kept ≡ true }
        ensures rows { rows_in result.rows ≡ rows_in rows.entry }
        ensures gone { rows_in result.gone ≡ rows_in gone.entry }
    {
        Change {
            kept: true,
            rows,
            gone,
        }
    }

    /// A turn of a part that is kept.
    pub fn turned(turn: Turn) -> Change<'a, 'r>
        ensures kept { result.kept ≡ true }
        ensures rows { rows_in result.rows ≡ turn.more }
        ensures gone { rows_in result.gone ≡ turn.gone }
    {
        Change {
            kept: true,
            rows: Rows::Own(turn.more),
            gone: Rows::Own(turn.gone),
        }
    }

    /// The same change by sets.
    pub(crate) fn settled(self, alloc: Global) -> Result<Change<'a, 'r>, AllocError>
        ensures { IfOk result (AreSettled self.entry) }
    {
        Ok(Change {
            kept: self.kept,
            rows: self.rows.settled(alloc)?,
            gone: self.gone.settled(alloc)?,
        })
    }
}

/// Two changes by sets.
pub(crate) fn both_settled<'a, 'b, 'r>(
    alloc: Global,
    left: Change<'a, 'r>,
    right: Change<'b, 'r>,
) -> Result<(Change<'a, 'r>, Change<'b, 'r>), AllocError>
    ensures left { IfOk result (λ settled. AreSettled left.entry settled.0) }
    ensures right { IfOk result (λ settled. AreSettled right.entry settled.1) }
{
    let left = left.settled(alloc)?;
    let right = right.settled(alloc)?;
    Ok((left, right))
}

impl Change<'_, '_> {
    ghost use Rattle.bloom_parts.specs.Turns.{rows_in};
    ghost use Rattle.bloom_parts.specs.Code.Settled.{AreSets};

    /// What it gets and loses, as a turn of its own.
    pub(crate) fn into_turn(self, alloc: Global) -> Result<Turn, AllocError>
        ensures more { IfOk result (λ turn. turn.more ≡ rows_in self.entry.rows) }
        ensures gone { IfOk result (λ turn. turn.gone ≡ rows_in self.entry.gone) }
    {
        let more = self.rows.into_set(alloc)?;
        let gone = self.gone.into_set(alloc)?;
        Ok(Turn { more, gone })
    }

    /// What it gets and loses.
    pub(crate) fn turning(&self) -> Turning<'_>
        requires { AreSets self.now }
        ensures more { result.more.now ≡ rows_in self.now.rows }
        ensures gone { result.gone.now ≡ rows_in self.now.gone }
    {
        Turning {
            more: self.rows.as_set(),
            gone: self.gone.as_set(),
        }
    }
}
