//! How an instance goes through timesteps: its shell is stepped, and what it puts out is emitted.
ghost use Rattle.std.specs.Prelude.{◌≡◌, ◌<◌, ◌≤◌, ◌∷◌, [], None, length, map, slice_index_or, IsSome, Err, IfErr, OnOk};
ghost use Rattle.std.specs.List.{All};
ghost use Rattle.blz_pool.specs.Entries.{entries_with_ids};
ghost use Rattle.bloom_eval.specs.Arrivals.{timestep_of};
ghost use Rattle.bloom_eval.specs.Changes.{AreChanges};
ghost use Rattle.bloom_eval.specs.Puts.{ArePutFrom, puts_in};
ghost use Rattle.bloom_eval.specs.Step.{Arrive, tables_next, outs_next, outs_still, counted_next};
ghost use Rattle.bloom_eval.specs.StepAnswers.{AllFit, SomeIsOver};
ghost use Rattle.bloom_eval.specs.declared.fault.StepFault.TheVariants as step;
ghost use Rattle.inbox.specs.Growth.{Continues};
ghost use Rattle.inbox.specs.Limits.{message_limit, too_many_rows, too_many_messages};
ghost use Rattle.inbox.specs.Timesteps.{one_timestep, one_by_one};
ghost use Rattle.inbox.specs.SetOffs.{AreGivenTo, going_entries, released_read, set_off_read};
ghost use Rattle.messages.specs.Lists.{IsExact, read_lists, total};
ghost use Rattle.inbox.specs.Outlets.{OthersStay};
ghost use Rattle.messages.specs.Faults.{IsLegal};
ghost use Rattle.inbox.specs.Running.{HasGone, HasMet, Emits, MeetsFirst, EmitsAt, MeetsAt};
ghost use Rattle.messages.specs.declared.fault.EventFault.TheVariants.{TooManyRows, TooManyMessages};

use crate::outlets::{Outlet, are_sets, emit_puts, emit_seals};
use crate::set_off::SetOffIds;
use bloom_eval::{Component, Puts, StepFault};
use blz_pool::{Id, Pool};
use messages::{EventFault, Lists};
use std::alloc::Global;

// Steps a shell by the ids of some entries.
fn step_shell(
    alloc: Global,
    shell: &mut Box<dyn Component>,
    pool: &Pool,
    ports: usize,
    entries: &[(u32, Id)],
    puts: &mut Puts,
) -> Result<(), StepFault>
    requires program { IsSome (program shell.old) }
    requires given { All (λ entry. entry.1 < length pool.now) entries.now }
    requires arrivals { Arrive (program shell.old) (timestep_of ports (entries_with_ids pool.now entries.now)) }
    ensures kind { kind shell.new ≡ kind shell.old }
    ensures loaded { program shell.new ≡ program shell.old }
    ensures kept { OnOk result (kept shell.new ≡ tables_next (program shell.old) (kept shell.old) (timestep_of ports (entries_with_ids pool.now entries.now))) }
    ensures outs { OnOk result (AreChanges (outs_next (program shell.old) (kept shell.old) (timestep_of ports (entries_with_ids pool.now entries.now))) (outs_still (program shell.old) (kept shell.old)) (puts_in pool.now puts.new)) }
    ensures ids { OnOk result (ArePutFrom pool.now puts.new) }
    ensures few { OnOk result (AllFit (counted_next (program shell.old) (kept shell.old) (timestep_of ports (entries_with_ids pool.now entries.now)))) }
    ensures rows { result ≡ Err step.TooManyRows → SomeIsOver (counted_next (program shell.old) (kept shell.old) (timestep_of ports (entries_with_ids pool.now entries.now))) }
{
    shell.step_by_ids(alloc, pool, ports, entries, puts)
}

// Steps a shell once over the records of some entries, and emits what it puts out.
fn step_once(
    alloc: Global,
    shell: &mut Box<dyn Component>,
    lists: &mut Lists,
    outlets: &[Outlet],
    ports: usize,
    entries: &[(u32, Id)],
    puts: &mut Puts,
) -> Result<(), EventFault>
    requires program { IsSome (program shell.old) }
    requires given { All (λ entry. entry.1 < length lists.old.records) entries.now }
    requires arrivals { Arrive (program shell.old) (timestep_of ports (entries_with_ids lists.old.records entries.now)) }
    requires places { All (λ o. o.place < length lists.old.lists) outlets.now }
    requires exact { IsExact lists.old }
    ensures kind { kind shell.new ≡ kind shell.old }
    ensures loaded { program shell.new ≡ program shell.old }
    ensures ok { OnOk result (HasGone (program shell.old) outlets.now (kept shell.old) (kept shell.new) lists.old lists.new (timestep_of ports (entries_with_ids lists.old.records entries.now) ∷ [])) }
    ensures fault { IfErr result (λ fault. HasMet fault (program shell.old) outlets.now (kept shell.old) (read_lists lists.old) (timestep_of ports (entries_with_ids lists.old.records entries.now) ∷ [])) }
{
    match step_shell(alloc, shell, lists.pool(), ports, entries, puts) {
        Ok(()) => {
            are_sets(puts);
            emit_puts(lists, outlets, puts)?;
            Ok(())
        }
        Err(StepFault::TooManyRows) => Err(EventFault::TooManyRows),
        Err(StepFault::NoMemory) => Err(EventFault::NoMemory),
    }
}

// Goes through a timestep for each of some entries.
fn go_alone(
    alloc: Global,
    shell: &mut Box<dyn Component>,
    lists: &mut Lists,
    outlets: &[Outlet],
    ports: usize,
    entries: &[(u32, Id)],
    puts: &mut Puts,
) -> Result<(), EventFault>
    requires program { IsSome (program shell.old) }
    requires given { All (λ entry. entry.1 < length lists.old.records) entries.now }
    requires arrivals { All (Arrive (program shell.old)) (one_by_one ports (entries_with_ids lists.old.records entries.now)) }
    requires places { All (λ o. o.place < length lists.old.lists) outlets.now }
    requires exact { IsExact lists.old }
    ensures kind { kind shell.new ≡ kind shell.old }
    ensures loaded { program shell.new ≡ program shell.old }
    ensures ok { OnOk result (HasGone (program shell.old) outlets.now (kept shell.old) (kept shell.new) lists.old lists.new (one_by_one ports (entries_with_ids lists.old.records entries.now))) }
    ensures fault { IfErr result (λ fault. HasMet fault (program shell.old) outlets.now (kept shell.old) (read_lists lists.old) (one_by_one ports (entries_with_ids lists.old.records entries.now))) }
{
    lists.known();
    for entry in entries {
        step_once(alloc, shell, lists, outlets, ports, &[*entry], puts)?;
    }
    Ok(())
}

// Goes through the timesteps of what partitions release, where they do.
fn go_released(
    alloc: Global,
    shell: &mut Box<dyn Component>,
    lists: &mut Lists,
    outlets: &[Outlet],
    set: &SetOffIds,
    puts: &mut Puts,
) -> Result<(), EventFault>
    requires program { IsSome (program shell.old) }
    requires given { AreGivenTo lists.old.records set.now }
    requires arrivals { All (Arrive (program shell.old)) (released_read lists.old.records set.now.ports set.now.released) }
    requires places { All (λ o. o.place < length lists.old.lists) outlets.now }
    requires exact { IsExact lists.old }
    ensures kind { kind shell.new ≡ kind shell.old }
    ensures loaded { program shell.new ≡ program shell.old }
    ensures ok { OnOk result (HasGone (program shell.old) outlets.now (kept shell.old) (kept shell.new) lists.old lists.new (released_read lists.old.records set.now.ports set.now.released)) }
    ensures fault { IfErr result (λ fault. HasMet fault (program shell.old) outlets.now (kept shell.old) (read_lists lists.old) (released_read lists.old.records set.now.ports set.now.released)) }
{
    lists.known();
    let Some(released) = &set.released else {
        return Ok(());
    };
    let ports = set.ports;
    step_once(
        alloc,
        shell,
        lists,
        outlets,
        ports,
        &released.together,
        puts,
    )?;
    go_alone(alloc, shell, lists, outlets, ports, &released.alone, puts)?;
    Ok(())
}

// Goes through the timestep of what goes with a batch, where something does.
fn go_along(
    alloc: Global,
    shell: &mut Box<dyn Component>,
    lists: &mut Lists,
    outlets: &[Outlet],
    set: &SetOffIds,
    puts: &mut Puts,
) -> Result<(), EventFault>
    requires program { IsSome (program shell.old) }
    requires given { AreGivenTo lists.old.records set.now }
    requires arrivals { All (Arrive (program shell.old)) (one_timestep set.now.ports (entries_with_ids lists.old.records (going_entries set.now.going))) }
    requires places { All (λ o. o.place < length lists.old.lists) outlets.now }
    requires exact { IsExact lists.old }
    ensures kind { kind shell.new ≡ kind shell.old }
    ensures loaded { program shell.new ≡ program shell.old }
    ensures ok { OnOk result (HasGone (program shell.old) outlets.now (kept shell.old) (kept shell.new) lists.old lists.new (one_timestep set.now.ports (entries_with_ids lists.old.records (going_entries set.now.going)))) }
    ensures fault { IfErr result (λ fault. HasMet fault (program shell.old) outlets.now (kept shell.old) (read_lists lists.old) (one_timestep set.now.ports (entries_with_ids lists.old.records (going_entries set.now.going)))) }
{
    lists.known();
    let entries = set.going.as_slice();
    if entries.is_empty() {
        return Ok(());
    }
    step_once(alloc, shell, lists, outlets, set.ports, entries, puts)?;
    Ok(())
}

// Goes through the timesteps of what is set off, one after the other. A limit comes exactly where it is
// met first; after a fault the shell and the lists have part of this.
fn go_through(
    alloc: Global,
    shell: &mut Box<dyn Component>,
    lists: &mut Lists,
    outlets: &[Outlet],
    set: &SetOffIds,
    puts: &mut Puts,
) -> Result<(), EventFault>
    requires program { IsSome (program shell.old) }
    requires given { AreGivenTo lists.old.records set.now }
    requires arrivals { All (Arrive (program shell.old)) (set_off_read lists.old.records set.now).steps }
    requires places { All (λ o. o.place < length lists.old.lists) outlets.now }
    requires exact { IsExact lists.old }
    ensures kind { kind shell.new ≡ kind shell.old }
    ensures loaded { program shell.new ≡ program shell.old }
    ensures ok { OnOk result (HasGone (program shell.old) outlets.now (kept shell.old) (kept shell.new) lists.old lists.new (set_off_read lists.old.records set.now).steps) }
    ensures fault { IfErr result (λ fault. HasMet fault (program shell.old) outlets.now (kept shell.old) (read_lists lists.old) (set_off_read lists.old.records set.now).steps) }
{
    go_released(alloc, shell, lists, outlets, set, puts)?;
    go_along(alloc, shell, lists, outlets, set, puts)?;
    Ok(())
}

/// Goes through the timesteps of what is set off, and then emits the seals of the partitions that
/// became whole. A limit comes exactly where it is met first; after a fault the shell and the lists
/// have part of this.
pub(crate) fn emit_set_off(
    alloc: Global,
    shell: &mut Box<dyn Component>,
    lists: &mut Lists,
    outlets: &[Outlet],
    set: &SetOffIds,
    puts: &mut Puts,
) -> Result<(), EventFault>
    requires program { IsSome (program shell.old) }
    requires given { AreGivenTo lists.old.records set.now }
    requires arrivals { All (Arrive (program shell.old)) (set_off_read lists.old.records set.now).steps }
    requires places { All (λ o. o.place < length lists.old.lists) outlets.now }
    requires exact { IsExact lists.old }
    ensures kind { kind shell.new ≡ kind shell.old }
    ensures loaded { program shell.new ≡ program shell.old }
    ensures ok { OnOk result (Emits (program shell.old) outlets.now (kept shell.old) (kept shell.new) (read_lists lists.old) (read_lists lists.new) (set_off_read lists.old.records set.now)) }
    ensures records { OnOk result (Continues lists.old.records lists.new.records) }
    ensures exact { OnOk result (IsExact lists.new) }
    ensures others { OnOk result (OthersStay outlets.now (read_lists lists.old) (read_lists lists.new)) }
    ensures count { OnOk result (length lists.new.lists ≡ length lists.old.lists) }
    ensures few { OnOk result (total lists.new.lists ≤ message_limit) }
    ensures rows { result ≡ Err TooManyRows → MeetsFirst too_many_rows (program shell.old) outlets.now (kept shell.old) (read_lists lists.old) (set_off_read lists.old.records set.now) }
    ensures messages { result ≡ Err TooManyMessages → MeetsFirst too_many_messages (program shell.old) outlets.now (kept shell.old) (read_lists lists.old) (set_off_read lists.old.records set.now) }
    ensures legal { IsLegal result }
{
    go_through(alloc, shell, lists, outlets, set, puts)?;
    emit_seals(lists, outlets, set.whole.as_slice())?;
    Ok(())
}

/// The shell at a place emits what a batch sets off, whose ids the pool of the lists gave: it goes through
/// the timesteps, and then emits the seals of the partitions that became whole. What a step puts out
/// passes through `puts`. A limit comes exactly where it is met first; after a fault the shell and the
/// lists have part of this.
pub fn emit_at(
    alloc: Global,
    shells: &mut Vec<Box<dyn Component>>,
    place: usize,
    lists: &mut Lists,
    outlets: &[Outlet],
    set: &SetOffIds,
    puts: &mut Puts,
) -> Result<(), EventFault>
    requires place { place < length shells.old.items }
    requires program { IsSome (slice_index_or (map (λ b. program b) shells.old.items) place None) }
    requires given { AreGivenTo lists.old.records set.now }
    requires arrivals { All (Arrive (slice_index_or (map (λ b. program b) shells.old.items) place None)) (set_off_read lists.old.records set.now).steps }
    requires places { All (λ o. o.place < length lists.old.lists) outlets.now }
    requires exact { IsExact lists.old }
    ensures kinds { map (λ b. kind b) shells.new.items ≡ map (λ b. kind b) shells.old.items }
    ensures loaded { map (λ b. program b) shells.new.items ≡ map (λ b. program b) shells.old.items }
    ensures ok { OnOk result (EmitsAt (map (λ b. program b) shells.old.items) place outlets.now (map (λ b. kept b) shells.old.items) (map (λ b. kept b) shells.new.items) (read_lists lists.old) (read_lists lists.new) (set_off_read lists.old.records set.now)) }
    ensures records { OnOk result (Continues lists.old.records lists.new.records) }
    ensures exact { OnOk result (IsExact lists.new) }
    ensures others { OnOk result (OthersStay outlets.now (read_lists lists.old) (read_lists lists.new)) }
    ensures count { OnOk result (length lists.new.lists ≡ length lists.old.lists) }
    ensures few { OnOk result (total lists.new.lists ≤ message_limit) }
    ensures rows { result ≡ Err TooManyRows → MeetsAt too_many_rows (map (λ b. program b) shells.old.items) place outlets.now (map (λ b. kept b) shells.old.items) (read_lists lists.old) (set_off_read lists.old.records set.now) }
    ensures messages { result ≡ Err TooManyMessages → MeetsAt too_many_messages (map (λ b. program b) shells.old.items) place outlets.now (map (λ b. kept b) shells.old.items) (read_lists lists.old) (set_off_read lists.old.records set.now) }
    ensures legal { IsLegal result }
{
    emit_set_off(alloc, &mut shells[place], lists, outlets, set, puts)
}

// A shell emits what one timestep sets off, of the records of some entries.
fn emit_entries(
    alloc: Global,
    shell: &mut Box<dyn Component>,
    lists: &mut Lists,
    outlets: &[Outlet],
    ports: usize,
    entries: &[(u32, Id)],
    puts: &mut Puts,
) -> Result<(), EventFault>
    requires program { IsSome (program shell.old) }
    requires given { All (λ entry. entry.1 < length lists.old.records) entries.now }
    requires arrivals { Arrive (program shell.old) (timestep_of ports (entries_with_ids lists.old.records entries.now)) }
    requires places { All (λ o. o.place < length lists.old.lists) outlets.now }
    requires exact { IsExact lists.old }
    ensures kind { kind shell.new ≡ kind shell.old }
    ensures loaded { program shell.new ≡ program shell.old }
    ensures ok { OnOk result (Emits (program shell.old) outlets.now (kept shell.old) (kept shell.new) (read_lists lists.old) (read_lists lists.new) (record { steps = (timestep_of ports (entries_with_ids lists.old.records entries.now)) ∷ []; whole = [] })) }
    ensures records { OnOk result (Continues lists.old.records lists.new.records) }
    ensures exact { OnOk result (IsExact lists.new) }
    ensures others { OnOk result (OthersStay outlets.now (read_lists lists.old) (read_lists lists.new)) }
    ensures count { OnOk result (length lists.new.lists ≡ length lists.old.lists) }
    ensures few { OnOk result (total lists.new.lists ≤ message_limit) }
    ensures rows { result ≡ Err TooManyRows → MeetsFirst too_many_rows (program shell.old) outlets.now (kept shell.old) (read_lists lists.old) (record { steps = (timestep_of ports (entries_with_ids lists.old.records entries.now)) ∷ []; whole = [] }) }
    ensures messages { result ≡ Err TooManyMessages → MeetsFirst too_many_messages (program shell.old) outlets.now (kept shell.old) (read_lists lists.old) (record { steps = (timestep_of ports (entries_with_ids lists.old.records entries.now)) ∷ []; whole = [] }) }
    ensures legal { IsLegal result }
{
    step_once(alloc, shell, lists, outlets, ports, entries, puts)?;
    Ok(())
}

/// The shell at a place emits what one timestep sets off, of the records of some entries, whose ids the
/// pool of the lists gave, as `emit_at` does.
pub fn emit_entries_at(
    alloc: Global,
    shells: &mut Vec<Box<dyn Component>>,
    place: usize,
    lists: &mut Lists,
    outlets: &[Outlet],
    ports: usize,
    entries: &[(u32, Id)],
    puts: &mut Puts,
) -> Result<(), EventFault>
    requires place { place < length shells.old.items }
    requires program { IsSome (slice_index_or (map (λ b. program b) shells.old.items) place None) }
    requires given { All (λ entry. entry.1 < length lists.old.records) entries.now }
    requires arrivals { Arrive (slice_index_or (map (λ b. program b) shells.old.items) place None) (timestep_of ports (entries_with_ids lists.old.records entries.now)) }
    requires places { All (λ o. o.place < length lists.old.lists) outlets.now }
    requires exact { IsExact lists.old }
    ensures kinds { map (λ b. kind b) shells.new.items ≡ map (λ b. kind b) shells.old.items }
    ensures loaded { map (λ b. program b) shells.new.items ≡ map (λ b. program b) shells.old.items }
    ensures ok { OnOk result (EmitsAt (map (λ b. program b) shells.old.items) place outlets.now (map (λ b. kept b) shells.old.items) (map (λ b. kept b) shells.new.items) (read_lists lists.old) (read_lists lists.new) (record { steps = (timestep_of ports (entries_with_ids lists.old.records entries.now)) ∷ []; whole = [] })) }
    ensures records { OnOk result (Continues lists.old.records lists.new.records) }
    ensures exact { OnOk result (IsExact lists.new) }
    ensures others { OnOk result (OthersStay outlets.now (read_lists lists.old) (read_lists lists.new)) }
    ensures count { OnOk result (length lists.new.lists ≡ length lists.old.lists) }
    ensures few { OnOk result (total lists.new.lists ≤ message_limit) }
    ensures rows { result ≡ Err TooManyRows → MeetsAt too_many_rows (map (λ b. program b) shells.old.items) place outlets.now (map (λ b. kept b) shells.old.items) (read_lists lists.old) (record { steps = (timestep_of ports (entries_with_ids lists.old.records entries.now)) ∷ []; whole = [] }) }
    ensures messages { result ≡ Err TooManyMessages → MeetsAt too_many_messages (map (λ b. program b) shells.old.items) place outlets.now (map (λ b. kept b) shells.old.items) (read_lists lists.old) (record { steps = (timestep_of ports (entries_with_ids lists.old.records entries.now)) ∷ []; whole = [] }) }
    ensures legal { IsLegal result }
{
    emit_entries(
        alloc,
        &mut shells[place],
        lists,
        outlets,
        ports,
        entries,
        puts,
    )
}
