//! How a net is opened: each source emits what it holds, and each instance has its shell and nothing else.
ghost use Rattle.std.specs.Prelude.{◌≡◌, ◌++◌, ℕ, [], Err, IfOk, OnOk, OnErr, map, replicate};
ghost use Rattle.std.specs.List.Sorted.{IsPermutation};
ghost use Rattle.topo_forms.specs.Data.{IsData};
ghost use Rattle.sched_net.specs.Bench.{fault_of_opening, OpensAs, fits_component, instance_components, taken_by, left_by};
ghost use Rattle.sched_net.specs.Code.First.{StandFirst};
ghost use Rattle.sched_net.specs.Net.{Stands};
ghost use Rattle.sched_net.specs.declared.fault.OpenFault.TheVariants.{NoBody, NoShell};

use crate::bench::open_shells;
use crate::books::Books;
use crate::fault::OpenFault;
use crate::net::Net;
use crate::numbered::Nearby;
use crate::seating::first_seats;
use bloom_eval::{Component, Puts};
use inbox::{Places, first_lists};
use messages::Log;
use std::alloc::{AllocError, Global};
use topo_forms::{Data, Valid};

/// The logs of so many components, of which none has an entry.
pub(crate) fn first_logs(alloc: Global, count: u32) -> Result<Vec<Log>, AllocError>
    ensures { IfOk result (λ logs. logs.items ≡ replicate count []) }
{
    let mut logs = Vec::new(alloc);
    for _ in 0..count {
        logs.push(Log::new(alloc))?;
    }
    Ok(logs)
}

/// The books of a net that made no step.
pub(crate) fn first_books(alloc: Global, valid: &Valid, given: Data) -> Result<Books, AllocError>
    requires { IsData valid.now.view given }
    ensures { IfOk result (StandFirst valid.now.view given) }
{
    valid.known();
    let places = Places::of(alloc, valid)?;
    let lists = first_lists(alloc, valid, &places, given)?;
    let logs = first_logs(alloc, valid.component_count())?;
    let seats = first_seats(alloc, valid, &places, lists.pool().key())?;
    Ok(Books {
        places,
        lists,
        logs,
        seats,
        puts: Puts::new(alloc),
        ended: false,
    })
}

impl<'a> Net<'a> {
    /// Opens a net over the data of its sources, whose records it takes over. It takes a shell of the
    /// bench for each instance, in component and replica order, each the first that fits and is left.
    ///
    /// NoBody comes for the first component without a body, and else NoShell for the first instance for
    /// which the bench has no shell left; both leave the bench as it was. After want of memory it holds
    /// shells of the same kinds, in any order. Takes a few look-ups in ordered sets for each record.
    pub fn open(
        alloc: Global,
        valid: &'a Valid,
        given: Data,
        bench: &mut Vec<Box<dyn Component>>,
    ) -> Result<Net<'a>, OpenFault>
        requires { IsData valid.now.view given }

        // It stands for no step.
        ensures answer { OpensAs (fault_of_opening valid.now.view (λ b. kind b) bench.old.items) result }
        ensures stands { IfOk result (λ net. Stands valid.now.view given [] (map (λ b. program b) net.shells.items) (map (λ b. kept b) net.shells.items) net.books) }
        ensures valid { IfOk result (λ net. net.valid.now ≡ valid.now) }

        // Shells come off the bench, and are neither made nor lost: instance by instance the first that fits
        // and is left, and all others stay in their order, as they were.
        ensures kinds { IfOk result (λ net. IsPermutation (map (λ b. kind b) bench.old.items) (map (λ b. kind b) bench.new.items ++ map (λ b. kind b) net.shells.items)) }
        ensures taken { IfOk result (λ net. map (λ b. kind b) net.shells.items ≡ map (λ b. kind b) (taken_by (fits_component valid.now.view (λ b. kind b)) (instance_components valid.now.view) bench.old.items)) }
        ensures left { OnOk result (bench.new.items ≡ left_by (fits_component valid.now.view (λ b. kind b)) (instance_components valid.now.view) bench.old.items) }
        ensures no_body { (c : ℕ) → result ≡ Err (NoBody c) → bench.new.items ≡ bench.old.items }
        ensures no_shell { (c : ℕ) → result ≡ Err (NoShell c) → bench.new.items ≡ bench.old.items }
        ensures err { OnErr result (IsPermutation (map (λ b. kind b) bench.old.items) (map (λ b. kind b) bench.new.items)) }
    {
        valid.known();
        let books = first_books(alloc, valid, given)?;
        let shells = open_shells(alloc, valid, bench)?;
        Ok(Net {
            alloc,
            valid,
            books,
            shells,
            nearby: Nearby::default(),
        })
    }
}
