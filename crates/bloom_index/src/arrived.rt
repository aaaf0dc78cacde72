//! What arrives in a step: a set at each port, or one record at one of them.
ghost use Rattle.std.specs.Prelude.{◌≡◌, ◌<◌, ◌∷◌, [], length};
ghost use Rattle.bloom_forms.specs.Step.{set_at};
ghost use Rattle.bloom_eval.specs.Arrivals.{timestep_of};
ghost use Rattle.bloom_parts.specs.Turns.{rows_in};

use bloom_parts::Rows;
use blz_set::RecordSet;
use blz_value::Record;
use std::alloc::Global;

/// A set for each port, or the one record that arrives and its port, of so many.
#[derive(Drop)]
pub(crate) enum Arrived<'r> {
    Sets(&'r [RecordSet]),
    One(usize, u32, &'r Record),
}

// What arrives at a port where sets do.
fn set_at_port<'r>(sets: &'r [RecordSet], port: usize) -> Rows<'r, 'r>
    requires { port < length sets.now }
    ensures { rows_in result ≡ set_at sets.now port }
{
    Rows::Lent(&sets[port])
}

// What arrives at a port where one record arrives at another or at this one.
fn row_at<'r>(alloc: Global, ports: usize, at: u32, row: &'r Record, port: usize) -> Rows<'r, 'r>
    requires { port < length (timestep_of ports ((at, row.now) ∷ [])) }
    ensures { rows_in result ≡ set_at (timestep_of ports ((at, row.now) ∷ [])) port }
{
    if at as usize == port {
        return Rows::One(row);
    }
    Rows::Own(RecordSet::new(alloc))
}

impl<'r> Arrived<'r> {
    ghost use Rattle.bloom_index.specs.Code.Arriving.{arrived_in};

    /// What arrives at a port.
    pub(crate) fn at(&self, alloc: Global, port: usize) -> Rows<'r, 'r>
        requires { port < length (arrived_in self.now) }
        ensures { rows_in result ≡ set_at (arrived_in self.now) port }
    {
        match self {
            Arrived::Sets(sets) => set_at_port(*sets, port),
            Arrived::One(ports, at, row) => row_at(alloc, *ports, *at, *row, port),
        }
    }
}
