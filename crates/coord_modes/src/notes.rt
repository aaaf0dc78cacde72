//! Which components have a note that isn't confluent.
ghost use Rattle.std.specs.Prelude.{◌≡◌, ◌<◌, [], length, slice_index_or};
ghost use Rattle.std.specs.List.{list_any};
ghost use Rattle.coord_modes.specs.Code.Notes as code;
ghost use Rattle.coord_modes.specs.Plan as spec;
ghost use Rattle.topo_forms.specs.Carried as carried;
ghost use Rattle.topo_forms.specs.View as view;

use bloom_forms::Note;
use topo_forms::Valid;

fn is_confluent(note: Note) -> bool
    ensures { result ≡ carried.is_confluent note }
{
    match note {
        Note::CR | Note::CW => true,
        Note::OR(_) | Note::OW(_) => false,
    }
}

fn is_order_note(note: Option<Note>) -> bool
    ensures { result ≡ code.is_order_note note }
{
    match note {
        Some(note) => !is_confluent(note),
        None => false,
    }
}

// Whether a note from a port is O.
fn has_order_note_at(valid: &Valid, component: u32, port: u32) -> bool
    requires component { component < length valid.now.view.components }
    requires port { port < length (view.component_at valid.now.view component).ports }
    ensures { result ≡ code.has_order_in (slice_index_or (view.component_at valid.now.view component).notes port []) }
{
    valid.known();
    for output in 0..valid.output_count(component) {
        if is_order_note(valid.note(component, port, output)) {
            return true;
        }
    }
    false
}

// Whether a note of a component is O, by a walk over its ports.
fn has_order_row(valid: &Valid, component: u32) -> bool
    requires { component < length valid.now.view.components }
    ensures { result ≡ list_any code.has_order_in (view.component_at valid.now.view component).notes }
{
    valid.known();
    for port in 0..valid.port_count(component) {
        if has_order_note_at(valid, component, port) {
            return true;
        }
    }
    false
}

/// Whether a note of a component is O.
pub fn has_order_note(valid: &Valid, component: u32) -> bool
    requires { component < length valid.now.view.components }
    ensures { result ≡ spec.has_order_note valid.now.view component }
{
    has_order_row(valid, component)
}
