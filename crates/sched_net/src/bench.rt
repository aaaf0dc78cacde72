//! Which shells of a bench a net takes, and how it loads them and puts them back.
ghost use Rattle.std.specs.Prelude.{◌≡◌, ◌<◌, ◌≤◌, ◌+◌, ◌++◌, ◌∷◌, [], ℕ, IfSome, IfOk, OnOk, OnErr, IsSome, Some, None, Err, map, length, position, true, false, replicate, slice_index_or, slice_set, vec_capacity};
ghost use Rattle.std.specs.List.Sorted.{IsPermutation};
ghost use Rattle.std.specs.Option.{option_map, option_to_list};
ghost use Rattle.bloom_forms.specs.Program.{IsStock};
ghost use Rattle.bloom_eval.specs.Kind.{kind_of};
ghost use Rattle.bloom_eval.specs.Step.{nothing_kept};
ghost use Rattle.topo_forms.specs.View.{program_of};
ghost use Rattle.sched_net.specs.Bench.{fits_kind, instance_components, first_without_body, fits_component, without_first, first_passing, taken_by, left_by, first_short, fault_of_short, fault_of_opening, OpensAs};
ghost use Rattle.sched_net.specs.Code.Flags.{claimed, may_claim, HaveBodies, AreThere};
ghost use Rattle.sched_net.specs.declared.fault.OpenFault.TheVariants.{NoBody, NoShell};

use crate::fault::OpenFault;
use bloom_eval::Component;
use bloom_forms::Program;
use std::alloc::{AllocError, Global};
use topo_forms::Valid;

// ---- what is wanted

// The first component without a body.
fn find_bodiless(valid: &Valid) -> Option<u32>
    ensures { result ≡ first_without_body valid.now.view }
{
    for component in 0..valid.component_count() {
        if valid.program(component).is_none() {
            return Some(component);
        }
    }
    None
}

// Puts a number so many times behind a list.
fn push_times(list: &mut Vec<u32>, number: u32, times: u32) -> Result<(), AllocError>
    ensures { OnOk result (list.new.items ≡ list.old.items ++ replicate times number) }
{
    for _ in 0..times {
        list.push(number)?;
    }
    Ok(())
}

// The component of each instance, in component and replica order.
fn components_of_instances(alloc: Global, valid: &Valid) -> Result<Vec<u32>, AllocError>
    ensures { IfOk result (λ list. list.items ≡ instance_components valid.now.view) }
{
    let mut list = Vec::new(alloc);
    for component in 0..valid.component_count() {
        push_times(&mut list, component, valid.replicas(component))?;
    }
    Ok(list)
}

// What a component runs that has a body.
#[tactic(auto, using(crate::proofs::TakingLemmas::stock_of))]
fn body_of(valid: &Valid, component: u32) -> &Program
    requires there { component < length valid.now.view.components }
    requires body { IsSome (program_of valid.now.view component) }
    ensures program { Some result.now ≡ program_of valid.now.view component }
    ensures stock { IsStock result.now }
{
    valid.known();
    match valid.program(component) {
        Some(program) => program,
        None => unreachable!(),
    }
}

// ---- single shells

// Whether a shell fits.
#[tactic(auto, using(crate::proofs::TakingLemmas::tests_kinds))]
fn does_fit(shell: &Box<dyn Component>, program: &Program) -> bool
    requires { IsStock program.now }
    ensures { result ≡ fits_kind (Some program.now) (kind shell.now) }
{
    shell.fits(program)
}

// Which shells fit.
fn which_fit(
    alloc: Global,
    bench: &[Box<dyn Component>],
    program: &Program,
) -> Result<Vec<bool>, AllocError>
    requires { IsStock program.now }
    ensures { IfOk result (λ fit. fit.items ≡ map (λ b. fits_kind (Some program.now) (kind b)) bench.now) }
{
    let mut fit = Vec::with_capacity(alloc, bench.len())?;
    for shell in bench {
        fit.push(does_fit(shell, program))?;
    }
    Ok(fit)
}

// The place of the first shell that fits.
fn first_fitting(bench: &[Box<dyn Component>], program: &Program) -> Option<usize>
    requires { IsStock program.now }
    ensures { result ≡ position (λ b. fits_kind (Some program.now) (kind b)) bench.now }
{
    bench.iter().position(
        |shell| -> bool
            requires { IsStock program.now }
            ensures { result ≡ fits_kind (Some program.entry.now) (kind shell.now) }
        { does_fit(shell, program) },
    )
}

// Takes the first shell that fits.
fn take_first(bench: &mut Vec<Box<dyn Component>>, program: &Program) -> Option<Box<dyn Component>>
    requires { IsStock program.now }
    ensures taken { option_to_list result ≡ first_passing (λ b. fits_kind (Some program.now) (kind b)) bench.old.items }
    ensures left { bench.new.items ≡ without_first (λ b. fits_kind (Some program.now) (kind b)) bench.old.items }
    ensures room { vec_capacity bench.new ≡ vec_capacity bench.old }
{
    match first_fitting(bench.as_slice(), program) {
        Some(place) => Some(bench.remove(place)),
        None => None,
    }
}

// Loads a shell.
fn load_one(shell: &mut Box<dyn Component>, given: &Program) -> Result<(), AllocError>
    requires stock { IsStock given.now }
    requires fits { kind_of given.now ≡ kind shell.old }
    ensures kind { kind shell.new ≡ kind shell.old }
    ensures loaded { OnOk result (program shell.new ≡ Some given.now) }
    ensures kept { OnOk result (kept shell.new ≡ nothing_kept (Some given.now)) }
{
    shell.load(given)
}

// Loads the shell at a place.
#[tactic(auto, using(crate::proofs::TakingLemmas::map_set))]
fn load_at(
    shells: &mut Vec<Box<dyn Component>>,
    place: usize,
    given: &Program,
) -> Result<(), AllocError>
    requires stock { IsStock given.now }
    requires in_bounds { place < length shells.old.items }
    requires fits { (d : _) → kind (slice_index_or shells.old.items place d) ≡ kind_of given.now }
    ensures kinds { map (λ b. kind b) shells.new.items ≡ map (λ b. kind b) shells.old.items }
    ensures loaded { OnOk result (map (λ b. program b) shells.new.items ≡ slice_set (map (λ b. program b) shells.old.items) place (Some given.now)) }
    ensures kept { OnOk result (map (λ b. kept b) shells.new.items ≡ slice_set (map (λ b. kept b) shells.old.items) place (nothing_kept (Some given.now))) }
{
    load_one(&mut shells[place], given)
}

// ---- all of them

// Loads the shell of each instance with what its component runs.
fn load_all(
    valid: &Valid,
    wanted: &[u32],
    shells: &mut Vec<Box<dyn Component>>,
) -> Result<(), AllocError>
    requires there { AreThere valid.now.view wanted.now }
    requires bodies { HaveBodies valid.now.view wanted.now }
    requires fit { map (λ b. Some (kind b)) shells.old.items ≡ map (λ c. option_map kind_of (program_of valid.now.view c)) wanted.now }
    ensures kinds { map (λ b. kind b) shells.new.items ≡ map (λ b. kind b) shells.old.items }
    ensures loaded { OnOk result (map (λ b. program b) shells.new.items ≡ map (program_of valid.now.view) wanted.now) }
    ensures kept { OnOk result (map (λ b. kept b) shells.new.items ≡ map (λ c. nothing_kept (program_of valid.now.view c)) wanted.now) }
{
    for i in 0..wanted.len() {
        let program = body_of(valid, wanted[i]);
        load_at(shells, i, program)?;
    }
    Ok(())
}

// Takes a shell for each instance, each the first that fits and is left, so that all can be put
// back without memory.
fn take_all(
    alloc: Global,
    valid: &Valid,
    wanted: &[u32],
    bench: &mut Vec<Box<dyn Component>>,
) -> Result<Vec<Box<dyn Component>>, AllocError>
    requires there { AreThere valid.now.view wanted.now }
    requires bodies { HaveBodies valid.now.view wanted.now }
    requires enough { first_short (fits_component valid.now.view (λ b. kind b)) wanted.now bench.old.items ≡ None }
    ensures taken { IfOk result (λ shells. shells.items ≡ taken_by (fits_component valid.now.view (λ b. kind b)) wanted.now bench.old.items) }
    ensures left { OnOk result (bench.new.items ≡ left_by (fits_component valid.now.view (λ b. kind b)) wanted.now bench.old.items) }
    ensures room { IfOk result (λ shells. length bench.new.items + length shells.items ≤ vec_capacity bench.new) }
    ensures err { OnErr result (bench.new.items ≡ bench.old.items) }
{
    let mut shells = Vec::with_capacity(alloc, wanted.len())?;
    for component in wanted {
        let Some(shell) = take_first(bench, body_of(valid, *component)) else {
            unreachable!()
        };
        shells.push_reserved(shell);
    }
    Ok(shells)
}

/// Puts shells behind a bench that has room for them.
pub(crate) fn put_back(shells: Vec<Box<dyn Component>>, bench: &mut Vec<Box<dyn Component>>)
    requires { length bench.old.items + length shells.items ≤ vec_capacity bench.old }
    ensures { bench.new.items ≡ bench.old.items ++ shells.items }
{
    for shell in shells {
        bench.push_reserved(shell);
    }
}

// Takes the first that is free and fits.
fn claim(free: &mut Vec<bool>, fit: &[bool]) -> bool
    requires { length free.old.items ≡ length fit.now }
    ensures flags { free.new.items ≡ claimed free.old.items fit.now }
    ensures found { result ≡ may_claim free.old.items fit.now }
{
    for i in 0..fit.len() {
        if free[i] && fit[i] {
            free[i] = false;
            return true;
        }
    }
    false
}

fn all_free(alloc: Global, count: usize) -> Result<Vec<bool>, AllocError>
    ensures { IfOk result (λ free. free.items ≡ replicate count true) }
{
    Ok(vec![in alloc; true; count]?)
}

// Whether the bench has a shell for each instance, each taking the first that fits and is left.
fn check_all(
    alloc: Global,
    valid: &Valid,
    wanted: &[u32],
    bench: &[Box<dyn Component>],
) -> Result<(), OpenFault>
    requires there { AreThere valid.now.view wanted.now }
    requires bodies { HaveBodies valid.now.view wanted.now }
    ensures { OpensAs (fault_of_short (first_short (fits_component valid.now.view (λ b. kind b)) wanted.now bench.now)) result }
{
    let mut free = all_free(alloc, bench.len())?;
    for i in 0..wanted.len() {
        let component = wanted[i];
        let fit = which_fit(alloc, bench, body_of(valid, component))?;
        if !claim(&mut free, fit.as_slice()) {
            return Err(OpenFault::NoShell { component });
        }
    }
    Ok(())
}

// Takes and loads the shells that were found to be there.
fn take_and_load(
    alloc: Global,
    valid: &Valid,
    wanted: &[u32],
    bench: &mut Vec<Box<dyn Component>>,
) -> Result<Vec<Box<dyn Component>>, AllocError>
    requires there { AreThere valid.now.view wanted.now }
    requires bodies { HaveBodies valid.now.view wanted.now }
    requires enough { first_short (fits_component valid.now.view (λ b. kind b)) wanted.now bench.old.items ≡ None }
    ensures kinds { IfOk result (λ shells. map (λ b. kind b) shells.items ≡ map (λ b. kind b) (taken_by (fits_component valid.now.view (λ b. kind b)) wanted.now bench.old.items)) }
    ensures loaded { IfOk result (λ shells. map (λ b. program b) shells.items ≡ map (program_of valid.now.view) wanted.now) }
    ensures kept { IfOk result (λ shells. map (λ b. kept b) shells.items ≡ map (λ c. nothing_kept (program_of valid.now.view c)) wanted.now) }
    ensures left { OnOk result (bench.new.items ≡ left_by (fits_component valid.now.view (λ b. kind b)) wanted.now bench.old.items) }
    ensures err { OnErr result (IsPermutation (map (λ b. kind b) bench.old.items) (map (λ b. kind b) bench.new.items)) }
{
    let mut shells = take_all(alloc, valid, wanted, bench)?;
    match load_all(valid, wanted, &mut shells) {
        Ok(()) => Ok(shells),
        Err(error) => {
            put_back(shells, bench);
            Err(error)
        }
    }
}

// Opens where each component has a body.
fn open_bodied(
    alloc: Global,
    valid: &Valid,
    bench: &mut Vec<Box<dyn Component>>,
) -> Result<Vec<Box<dyn Component>>, OpenFault>
    requires bodies { first_without_body valid.now.view ≡ None }
    ensures answer { OpensAs (fault_of_short (first_short (fits_component valid.now.view (λ b. kind b)) (instance_components valid.now.view) bench.old.items)) result }
    ensures kinds { IfOk result (λ shells. map (λ b. kind b) shells.items ≡ map (λ b. kind b) (taken_by (fits_component valid.now.view (λ b. kind b)) (instance_components valid.now.view) bench.old.items)) }
    ensures loaded { IfOk result (λ shells. map (λ b. program b) shells.items ≡ map (program_of valid.now.view) (instance_components valid.now.view)) }
    ensures kept { IfOk result (λ shells. map (λ b. kept b) shells.items ≡ map (λ c. nothing_kept (program_of valid.now.view c)) (instance_components valid.now.view)) }
    ensures left { OnOk result (bench.new.items ≡ left_by (fits_component valid.now.view (λ b. kind b)) (instance_components valid.now.view) bench.old.items) }
    ensures no_body { (c : ℕ) → result ≡ Err (NoBody c) → bench.new.items ≡ bench.old.items }
    ensures no_shell { (c : ℕ) → result ≡ Err (NoShell c) → bench.new.items ≡ bench.old.items }
    ensures err { OnErr result (IsPermutation (map (λ b. kind b) bench.old.items) (map (λ b. kind b) bench.new.items)) }
{
    let wanted = components_of_instances(alloc, valid)?;
    check_all(alloc, valid, wanted.as_slice(), bench.as_slice())?;
    let shells = take_and_load(alloc, valid, wanted.as_slice(), bench)?;
    Ok(shells)
}

/// Takes a shell for each instance, each the first that fits and is left, and loads it. NoBody comes
/// first, then NoShell; both leave the bench. After want of memory the bench holds shells of the same
/// kinds, in any order.
pub(crate) fn open_shells(
    alloc: Global,
    valid: &Valid,
    bench: &mut Vec<Box<dyn Component>>,
) -> Result<Vec<Box<dyn Component>>, OpenFault>
    ensures answer { OpensAs (fault_of_opening valid.now.view (λ b. kind b) bench.old.items) result }
    ensures kinds { IfOk result (λ shells. map (λ b. kind b) shells.items ≡ map (λ b. kind b) (taken_by (fits_component valid.now.view (λ b. kind b)) (instance_components valid.now.view) bench.old.items)) }
    ensures loaded { IfOk result (λ shells. map (λ b. program b) shells.items ≡ map (program_of valid.now.view) (instance_components valid.now.view)) }
    ensures kept { IfOk result (λ shells. map (λ b. kept b) shells.items ≡ map (λ c. nothing_kept (program_of valid.now.view c)) (instance_components valid.now.view)) }
    ensures left { OnOk result (bench.new.items ≡ left_by (fits_component valid.now.view (λ b. kind b)) (instance_components valid.now.view) bench.old.items) }
    ensures no_body { (c : ℕ) → result ≡ Err (NoBody c) → bench.new.items ≡ bench.old.items }
    ensures no_shell { (c : ℕ) → result ≡ Err (NoShell c) → bench.new.items ≡ bench.old.items }
    ensures err { OnErr result (IsPermutation (map (λ b. kind b) bench.old.items) (map (λ b. kind b) bench.new.items)) }
{
    match find_bodiless(valid) {
        Some(component) => Err(OpenFault::NoBody { component }),
        None => open_bodied(alloc, valid, bench),
    }
}
