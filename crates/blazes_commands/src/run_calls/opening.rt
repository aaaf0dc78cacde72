//! The opening of a net with shells of the bench.
ghost use Rattle.std.specs.Prelude.{◌≡◌, ◌++◌, [], IfOk, OnErr, map};
ghost use Rattle.std.specs.List.Sorted.{IsPermutation};
ghost use Rattle.sched_net.specs.Bench.{fault_of_opening};
ghost use Rattle.sched_net.specs.Net.{Stands};
ghost use Rattle.topo_forms.specs.Data.{IsData};
ghost use Rattle.topo_forms.specs.View.{component_at};
ghost use Rattle.blazes_commands.specs.Runs.Checks as check;
ghost use Rattle.command_checks.specs.Ran.{Gives};

use bloom_eval::Component;
use blz_value::Str;
use command_checks::{Stop, stop_at};
use report_lines::Refusal;
use sched_net::{Net, OpenFault};
use std::alloc::{AllocError, Global};
use topo_forms::{Data, Valid};

// The name of a component; past the last stands an empty one.
fn component_name(alloc: Global, valid: &Valid, component: u32) -> Result<Str, AllocError>
    ensures { IfOk result (λ name. name ≡ (component_at valid.now.view component).name) }
{
    if component < valid.component_count() {
        valid.component_name(component).copy()
    } else {
        Str::from_text(alloc, "")
    }
}

// The refusal of an opening; want of memory is none.
fn opening_refusal(
    alloc: Global,
    valid: &Valid,
    fault: &OpenFault,
) -> Result<Option<Refusal>, AllocError>
    ensures { IfOk result (λ refusal. refusal ≡ check.opening_refusal valid.now.view fault.now) }
{
    match fault {
        OpenFault::NoBody { component } => Ok(Some(Refusal::NoBody {
            component: component_name(alloc, valid, *component)?,
        })),
        OpenFault::NoShell { component } => Ok(Some(Refusal::NoShell {
            component: component_name(alloc, valid, *component)?,
        })),
        OpenFault::NoMemory => Ok(None),
    }
}

/// Opens a net over the data of its sources with shells of the bench. Where it isn't opened the bench
/// has shells of the same kinds, in any order.
pub fn opened<'a>(
    alloc: Global,
    valid: &'a Valid,
    given: Data,
    bench: &mut Vec<Box<dyn Component>>,
) -> Result<Net<'a>, Stop>
    requires { IsData valid.now.view given }
    ensures gives { Gives (λ net. tt) result (check.opened valid.now.view (fault_of_opening valid.now.view (λ k. k) (map (λ b. kind b) bench.old.items))) }

    // It stands for no step.
    ensures stands { IfOk result (λ net. Stands valid.now.view given [] (map (λ b. program b) net.shells.items) (map (λ b. kept b) net.shells.items) net.books) }
    ensures valid { IfOk result (λ net. net.valid.now ≡ valid.now) }

    // Of each kind the bench and the net together have as many shells as the bench had.
    ensures kinds { IfOk result (λ net. IsPermutation (map (λ b. kind b) bench.old.items) (map (λ b. kind b) bench.new.items ++ map (λ b. kind b) net.shells.items)) }
    ensures unopened { OnErr result (IsPermutation (map (λ b. kind b) bench.old.items) (map (λ b. kind b) bench.new.items)) }
{
    match Net::open(alloc, valid, given, bench) {
        Ok(net) => Ok(net),
        Err(fault) => Err(stop_at(alloc, opening_refusal(alloc, valid, &fault)?)),
    }
}
