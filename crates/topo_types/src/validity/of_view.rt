//! The kinds ReplicaMismatch, SealInCycle and Understated, which go by the view.
ghost use Rattle.std.specs.List.{list_any};
ghost use Rattle.std.specs.Prelude.{◌≡◌, ◌≤◌, ◌<◌, ◌+◌, false, is_some, length, map, option_map, IfOk, IfSome, All};
ghost use Rattle.blz_value.specs.FirstPlace.{first_place};
ghost use Rattle.bloom_forms.specs.Annotation.{notes_of};
ghost use Rattle.topo_types.specs.Code.Built.{site_seen, sites_seen, IsBuilt};
ghost use Rattle.topo_types.specs.Code.OfView as code;
ghost use Rattle.topo_forms.specs.Feeds as feeds;
ghost use Rattle.topo_forms.specs.Kept.{view_kept};
ghost use Rattle.topo_forms.specs.Regions.{is_in_cycle};
ghost use Rattle.topo_forms.specs.Validity.OfView as spec;
ghost use Rattle.topo_forms.specs.Validity.Unknown.{unknown_note};
ghost use Rattle.topo_forms.specs.View as view;

use crate::view::components::{derived_note, derived_notes};
use crate::view::numbers::note_from;
use crate::view::sites::{Site, side_number};
use bloom_forms::{Mode, Note, Notes, covers};
use fd_closure::AttrNames;
use std::alloc::{AllocError, Global};
use topo_forms::{Declared, Kept, StreamEntry};
use topo_graph::{is_order, mode_of, origin_of};

// ---- ReplicaMismatch

fn can_be_paired(senders: u32, receivers: u32) -> bool
    ensures { result ≡ feeds.can_be_paired senders receivers }
{
    senders == receivers || (senders == 1 || receivers == 1)
}

fn replicas_of(kept: &Kept, component: usize) -> u32
    ensures { result ≡ view.replicas_of (view_kept kept.now) component }
{
    match kept.components.as_slice().get(component) {
        Some(c) => c.replicas,
        None => 0,
    }
}

// How many replicas send a stream.
fn senders_of(kept: &Kept, stream: usize) -> u32
    ensures { result ≡ view.stream_replicas (view_kept kept.now) stream }
{
    match origin_of(kept, stream) {
        None => 1,
        Some((component, _)) => replicas_of(kept, component as usize),
    }
}

// Whether a component isn't Order, and its replicas can't be paired with so many senders.
fn is_unpaired(kept: &Kept, senders: u32, component: usize) -> bool
    ensures { result ≡ spec.is_unpaired (view_kept kept.now) senders component }
{
    let ordered = is_order(kept, component);
    !ordered && !can_be_paired(senders, replicas_of(kept, component))
}

// Whether one of the ends is a port of such a component.
fn any_unpaired(kept: &Kept, senders: u32, ends: &[(u32, u32)]) -> bool
    ensures { result ≡ list_any (λ end. spec.is_unpaired (view_kept kept.now) senders end.0) ends.now }
{
    ends.iter()
        .any(|end| is_unpaired(kept, senders, end.0 as usize))
}

fn is_mismatched(kept: &Kept, stream: usize) -> bool
    ensures { result ≡ spec.is_mismatched (view_kept kept.now) stream }
{
    let senders = senders_of(kept, stream);
    match kept.streams.as_slice().get(stream) {
        Some(s) => any_unpaired(kept, senders, s.to.as_slice()),
        None => false,
    }
}

/// The first of the streams after so many sources that goes to a port with whose replicas its
/// senders can't be paired.
pub(crate) fn first_mismatched(
    kept: &Kept,
    sources: usize,
    streams: &[StreamEntry],
) -> Option<usize>
    requires few { sources ≤ 64 }
    requires few_streams { length streams.now ≤ 64 }
    ensures place { result ≡ first_place (λ i s. spec.is_mismatched (view_kept kept.now) (sources + i)) 0 streams.now }
    ensures within { IfSome result (λ i. i < length streams.now) }
{
    for (number, _) in streams.iter().enumerate() {
        if is_mismatched(kept, sources + number) {
            return Some(number);
        }
    }
    None
}

// ---- SealInCycle

fn has_key(mode: Mode) -> bool
    ensures { result ≡ is_some (view.mode_key mode) }
{
    match mode {
        Mode::Pass(_) | Mode::Seal(_) => true,
        Mode::Free | Mode::Order => false,
    }
}

// Whether a component has the mode Pass or Seal in a cyclic region, told which components are in one.
#[tactic(auto, using(crate::proofs::Faults::OfViewLemmas::cycle_at))]
fn seals_in_cycle(kept: &Kept, cycles: &[bool], number: usize) -> bool
    requires within { number < length cycles.now }
    requires cycles { cycles.now ≡ map (is_in_cycle (view_kept kept.now)) (view.component_numbers (view_kept kept.now)) }
    ensures { result ≡ spec.seals_in_cycle (view_kept kept.now) number }
{
    let cyclic = cycles[number];
    has_key(mode_of(kept, number)) && cyclic
}

/// The first component with the mode Pass or Seal in a cyclic region, told which components are in
/// one.
pub(crate) fn first_sealed(kept: &Kept, cycles: &[bool]) -> Option<usize>
    requires { cycles.now ≡ map (is_in_cycle (view_kept kept.now)) (view.component_numbers (view_kept kept.now)) }
    ensures place { result ≡ first_place (λ i told. spec.seals_in_cycle (view_kept kept.now) i) 0 cycles.now }
    ensures within { IfSome result (λ i. i < length cycles.now) }
{
    for (number, _) in cycles.iter().enumerate() {
        if seals_in_cycle(kept, cycles, number) {
            return Some(number);
        }
    }
    None
}

// ---- Understated

// Whether a declared note doesn't cover the one that is derived, where one is.
fn falls_short(declared: Note, derived: Option<Note>) -> bool
    ensures { result ≡ spec.falls_short declared derived }
{
    match derived {
        Some(note) => !covers(declared, note),
        None => false,
    }
}

// Whether a note doesn't cover what the body gives its path.
fn is_short(names: &AttrNames, site: &Site<'_>, derived: &Option<Notes>, note: &Declared) -> bool
    requires built { IsBuilt (site_seen site.now) }
    requires notes { derived.now ≡ option_map (notes_of names.now) site.now.program }
    requires known { unknown_note (site_seen site.now) note.now ≡ false }
    ensures { result ≡ spec.is_short names.now (site_seen site.now) note.now }
{
    let port = side_number(site.ports.as_slice(), &note.from);
    let output = side_number(site.outputs.as_slice(), &note.to);
    let declared = note_from(names, note.note, note.gate.as_slice());
    falls_short(declared, derived_note(names, site, derived, port, output))
}

// Whether one of these notes doesn't cover what the body gives its path.
fn any_short(
    names: &AttrNames,
    site: &Site<'_>,
    derived: &Option<Notes>,
    notes: &[Declared],
) -> bool
    requires built { IsBuilt (site_seen site.now) }
    requires derived { derived.now ≡ option_map (notes_of names.now) site.now.program }
    requires known { All (λ note. unknown_note (site_seen site.now) note ≡ false) notes.now }
    ensures { result ≡ list_any (spec.is_short names.now (site_seen site.now)) notes.now }
{
    for note in notes {
        if is_short(names, site, derived, note) {
            return true;
        }
    }
    false
}

fn is_understated(alloc: Global, names: &AttrNames, site: &Site<'_>) -> Result<bool, AllocError>
    requires built { IsBuilt (site_seen site.now) }
    requires known { code.HasKnownNotes (site_seen site.now) }
    ensures { IfOk result (λ short. short ≡ spec.is_understated names.now (site_seen site.now)) }
{
    let notes = site.entry.notes.as_slice();
    if notes.is_empty() {
        return Ok(false);
    }
    let derived = derived_notes(alloc, names, site)?;
    Ok(any_short(names, site, &derived, notes))
}

/// The first component of which a declared note tells less than its body gives the path.
pub(crate) fn first_understated(
    alloc: Global,
    names: &AttrNames,
    sites: &[Site<'_>],
) -> Result<Option<usize>, AllocError>
    requires built { All IsBuilt (sites_seen sites.now) }
    requires known { All code.HasKnownNotes (sites_seen sites.now) }
    ensures place { IfOk result (λ place. place ≡ first_place (λ i site. spec.is_understated names.now site) 0 (sites_seen sites.now)) }
    ensures within { IfOk result (λ place. IfSome place (λ i. i < length sites.now)) }
{
    for (number, site) in sites.iter().enumerate() {
        if is_understated(alloc, names, site)? {
            return Ok(Some(number));
        }
    }
    Ok(None)
}
