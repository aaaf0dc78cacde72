//! The notes of a program's paths.
ghost use Rattle.std.specs.Prelude.{◌≡◌, ◌<◌, [], length, slice_index_or};
ghost use Rattle.bloom_forms.specs.Annotation.{note_at};

use crate::note::Note;
use blz_value::Items;
use std::marker::Model;

/// The notes of a program's paths, from each port to each output.
#[derive(Drop)]
pub struct Notes {
    ports: Vec<Items<Option<Note>>>,
}

impl Model for Notes {
    ghost use Rattle.std.specs.Prelude.{List, Option};
    ghost use Rattle.bloom_forms.specs.declared.note.Note.{Note};

    ghost Value = { List (List (Option Note)) };

    ghost view = { λ notes. notes.ports.items };
}

impl Notes {
    /// The notes of these ports, of each those to all outputs.
    pub fn from_ports(ports: Vec<Items<Option<Note>>>) -> Notes
        ensures { result ≡ ports.items }
    {
        Notes { ports }
    }

    /// The note of the path from a port to an output, each numbered from 0 in declared order; None
    /// exactly where no rule of the output uses the port.
    pub fn at(&self, port: u32, output: u32) -> Option<Note>
        requires port { port < length self.now }
        requires output { output < length (slice_index_or self.now port []) }
        ensures { result ≡ note_at self.now port output }
    {
        self.ports[port as usize].as_slice()[output as usize]
    }
}
