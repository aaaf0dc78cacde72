//! What the reports on labels print: a topology and the labels of its streams.
ghost use Rattle.std.specs.Prelude.{◌≡◌, ◌<◌, length};
ghost use Rattle.label_walk.specs.Paths.{label_at};
ghost use Rattle.report_lines.specs.Lines.{word_text};
ghost use Rattle.report_lines.specs.Words as spec;

use crate::line::Word;
use bloom_forms::{Mode, Note};
use blz_value::Str;
use label_rules::Label;
use label_walk::Labels;
use std::alloc::Global;
use topo_forms::Valid;

/// A topology and the labels of its streams.
#[derive(Clone, Copy)]
pub struct Report<'a> {
    pub alloc: Global,
    pub valid: &'a Valid,
    pub labels: &'a Labels,
    ghost each: { length labels.now ≡ length valid.now.view.streams },
}

impl<'a> Report<'a> {
    /// The label of a stream.
    pub fn label(&self, stream: u32) -> Label
        requires { stream < length self.now.valid.now.view.streams }
        ensures { result ≡ label_at self.now.labels.now stream }
    {
        self.labels.of(stream)
    }
}

/// The word of a label, where these are the names of the attributes.
pub fn label_word<'a>(names: &'a [Str], label: Label) -> Word<'a>
    ensures { word_text result ≡ spec.label_word names.now label }
{
    match label {
        Label::Seal(key) => Word::Marked("Seal", names, key),
        Label::Async => Word::Plain("Async"),
        Label::Run => Word::Plain("Run"),
        Label::Inst => Word::Plain("Inst"),
        Label::Diverge => Word::Plain("Diverge"),
    }
}

/// The word of a note.
pub fn note_word<'a>(names: &'a [Str], note: Note) -> Word<'a>
    ensures { word_text result ≡ spec.note_word names.now note }
{
    match note {
        Note::CR => Word::Plain("CR"),
        Note::CW => Word::Plain("CW"),
        Note::OR(gate) => Word::Marked("OR", names, gate),
        Note::OW(gate) => Word::Marked("OW", names, gate),
    }
}

/// The word of a mode.
pub fn mode_word<'a>(names: &'a [Str], mode: Mode) -> Word<'a>
    ensures { word_text result ≡ spec.mode_word names.now mode }
{
    match mode {
        Mode::Free => Word::Plain("free"),
        Mode::Pass(key) => Word::Marked("pass", names, key),
        Mode::Seal(key) => Word::Marked("seal", names, key),
        Mode::Order => Word::Plain("order"),
    }
}
