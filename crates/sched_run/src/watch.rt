//! The works, and where each may close and open others.
ghost use Rattle.std.specs.Prelude.{ℕ, IfOk, OnOk};
ghost use Rattle.sched_net.specs.Net.{BooksRun};
ghost use Rattle.sched_run.specs.Code.Watch.{IsWatched, IsUntouched, StillShows};
ghost use Rattle.sched_run.specs.Code.Works.{AreWorksOf, AreShown, HasNames, MayLookAt};

use crate::tables::Tables;
use crate::works::{Work, Works};
use sched_net::Books;
use std::alloc::{AllocError, Global};
use topo_forms::Valid;

/// The works, and the places where each may change what is open.
#[derive(Drop)]
pub(crate) struct Watch {
    pub(crate) works: Works,
    tables: Tables,
}

impl Watch {
    /// The works of a net, and where they change. The error is want of memory.
    pub(crate) fn of(alloc: Global, valid: &Valid, books: &Books) -> Result<Watch, AllocError>
        requires { BooksRun valid.now.view books.now }
        ensures works { IfOk result (λ watch. AreWorksOf valid.now.view watch.works) }
        ensures shown { IfOk result (λ watch. AreShown valid.now.view books.now watch.works) }
        ensures watched { IfOk result (IsWatched valid.now.view) }
    {
        let works = Works::of(alloc, valid, books)?;
        let tables = Tables::of(alloc, valid, books, &works)?;
        Ok(Watch { works, tables })
    }

    /// Looks again at every place that a work may change. The error is want of memory.
    pub(crate) fn look_after(
        &mut self,
        valid: &Valid,
        books: &Books,
        work: &Work,
    ) -> Result<(), AllocError>
        requires runs { BooksRun valid.now.view books.now }
        requires works { AreWorksOf valid.now.view self.old.works }
        requires watched { IsWatched valid.now.view self.old }
        requires names { HasNames valid.now.view work.now }
        requires may { (place : ℕ) → MayLookAt valid.now.view books.now self.old.works work.now place }
        requires rest { (place : ℕ) → IsUntouched valid.now.view self.old.works work.now place → StillShows valid.now.view books.now self.old.works place }
        ensures works { OnOk result (AreWorksOf valid.now.view self.new.works) }
        ensures watched { OnOk result (IsWatched valid.now.view self.new) }
        ensures shown { OnOk result (AreShown valid.now.view books.now self.new.works) }
    {
        let closing = self.tables.closing(valid, books, work);
        let opening = self.tables.opening(valid, books, work);
        self.works.look_at(valid, books, work, closing)?;
        self.works.look_at(valid, books, work, opening)
    }
}
