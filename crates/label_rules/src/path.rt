//! The label of a path.
ghost use Rattle.std.specs.Prelude.{◌≡◌};
ghost use Rattle.label_rules.specs.PathTable as spec;

use crate::label::{Base, Label, PathLabel};
use bloom_forms::{Mode, Note};
use blz_value::{Attrs, Fd};
use fd_closure::compatible;

fn is_mode_key(mode: Mode, key: Attrs) -> bool
    ensures { result ≡ spec.is_mode_key mode key }
{
    match mode {
        Mode::Pass(own) | Mode::Seal(own) => own.bits() == key.bits(),
        Mode::Free | Mode::Order => false,
    }
}

fn is_awaited(mode: Mode, key: Attrs) -> bool
    ensures { result ≡ spec.is_awaited mode key }
{
    match mode {
        Mode::Seal(own) => own.bits() == key.bits(),
        Mode::Free | Mode::Pass(_) | Mode::Order => false,
    }
}

/// A label as a component of this mode reads it: Seal is Async unless the mode is Pass or Seal with
/// its key.
pub fn label_read(mode: Mode, label: Label) -> Label
    ensures { result ≡ spec.label_read mode label }
{
    match label {
        Label::Seal(key) if !is_mode_key(mode, key) => Label::Async,
        other => other,
    }
}

/// A gate as a component of this mode reads it at a port with these columns: it is empty where the
/// mode is Seal and its key isn't within the columns.
pub fn gate_read(mode: Mode, columns: Attrs, gate: Attrs) -> Attrs
    ensures { result ≡ spec.gate_read mode columns gate }
{
    match mode {
        Mode::Seal(key) if !key.is_within(columns) => Attrs::from_bits(0),
        _ => gate,
    }
}

fn over_confluent_read(label: Label) -> PathLabel
    ensures { result ≡ spec.over_confluent_read label }
{
    match label {
        Label::Seal(key) => PathLabel::Seal(key),
        Label::Async => PathLabel::Async,
        Label::Run => PathLabel::Run,
        Label::Inst => PathLabel::Inst,
        Label::Diverge => PathLabel::Diverge,
    }
}

fn over_confluent_write(label: Label) -> PathLabel
    ensures { result ≡ spec.over_confluent_write label }
{
    match label {
        Label::Inst => PathLabel::Taint,
        other => over_confluent_read(other),
    }
}

fn over_ordered_read(gate: Attrs, label: Label) -> PathLabel
    ensures { result ≡ spec.over_ordered_read gate label }
{
    match label {
        Label::Seal(key) => PathLabel::NdRead(gate, Base::Seal(key)),
        Label::Async => PathLabel::NdRead(gate, Base::Async),
        Label::Run => PathLabel::NdRead(gate, Base::Run),
        Label::Inst => PathLabel::Inst,
        Label::Diverge => PathLabel::Diverge,
    }
}

fn over_ordered_write(mode: Mode, fds: &[Fd], gate: Attrs, label: Label) -> PathLabel
    ensures { result ≡ spec.over_ordered_write mode fds.now gate label }
{
    match label {
        Label::Seal(key) => {
            if is_awaited(mode, key) && compatible(gate, key, fds) {
                PathLabel::NdRead(gate, Base::Seal(key))
            } else {
                PathLabel::Taint
            }
        }
        Label::Async | Label::Run | Label::Inst => PathLabel::Taint,
        Label::Diverge => PathLabel::Diverge,
    }
}

/// What a path with this note makes of this label, where `columns` are the columns of the port,
/// `mode` is that of the component, and `fds` are the dependencies that are usable there.
pub fn pass_path(label: Label, note: Note, columns: Attrs, mode: Mode, fds: &[Fd]) -> PathLabel
    ensures { result ≡ spec.pass_path label note columns mode fds.now }
{
    let label = label_read(mode, label);
    match note {
        Note::CR => over_confluent_read(label),
        Note::CW => over_confluent_write(label),
        Note::OR(gate) => over_ordered_read(gate_read(mode, columns, gate), label),
        Note::OW(gate) => over_ordered_write(mode, fds, gate_read(mode, columns, gate), label),
    }
}
