//! How a net ends: by a fault, and by giving its shells back.
ghost use Rattle.std.specs.Prelude.{◌≡◌, ◌++◌, true, map, OnOk, OnErr};
ghost use Rattle.sched_net.specs.Closing.{AreLastTables};

use crate::bench::put_back;
use crate::fault::MakeFault;
use crate::net::Net;
use bloom_eval::Component;
use std::alloc::AllocError;

impl Net<'_> {
    /// Whether the net is ended: by an answer of an event, or by a fault of making.
    pub fn is_ended(&self) -> bool
        ensures { result ≡ self.now.books.ended }
    {
        self.books.ended
    }

    /// Ends the net at a fault of making, and hands the fault on: for who makes a schedule over the net,
    /// which fails where an event too many is due, or where its own lists find no memory.
    pub fn fail(&mut self, fault: MakeFault) -> MakeFault
        ensures fault { result ≡ fault }
        ensures ended { self.new.books.ended ≡ true }
        ensures valid { self.new.valid ≡ self.old.valid }
        ensures shells { self.new.shells ≡ self.old.shells }
    {
        self.books.ended = true;
        fault
    }

    /// Puts the shells behind those of a bench, in component and replica order, with what they keep,
    /// on an ended net too. After want of memory the bench is as it was, and the shells are gone.
    pub fn close(self, bench: &mut Vec<Box<dyn Component>>) -> Result<(), AllocError>
        ensures ok { OnOk result (bench.new.items ≡ bench.old.items ++ self.entry.shells.items) }
        ensures err { OnErr result (bench.new.items ≡ bench.old.items) }

        // What they keep, where no fault ended the net.
        ensures tables { AreLastTables self.entry.valid.now.view (map (λ b. program b) self.entry.shells.items) (map (λ b. kept b) self.entry.shells.items) self.entry.books }
    {
        bench.reserve(self.shells.len())?;
        put_back(self.shells, bench);
        Ok(())
    }
}
