//! The labels of all streams, by the streams' numbers.
ghost use Rattle.std.specs.Prelude.{◌≡◌, ◌<◌, Some, length};
ghost use Rattle.std.specs.List.{slice_get};

use blz_value::Items;
use label_rules::Label;
use std::marker::Model;

/// The label of each stream, by its number: the sources come first and then the other streams,
/// both in the order of the file.
#[derive(Drop)]
pub struct Labels {
    labels: Items<Label>,
}

impl Model for Labels {
    ghost use Rattle.std.specs.Prelude.{List};
    ghost use Rattle.label_rules.specs.declared.label.Label.{Label as One};

    ghost Value = { List One };

    ghost view = { λ all. all.labels };
}

impl Labels {
    pub(crate) fn from_vec(labels: Vec<Label>) -> Labels
        ensures { result ≡ labels.items }
    {
        Labels {
            labels: Items::from_vec(labels),
        }
    }

    /// The label of the stream with this number.
    pub fn of(&self, stream: u32) -> Label
        requires { stream < length self.now }
        ensures { slice_get self.now stream ≡ Some result }
    {
        self.labels.as_slice()[stream as usize]
    }

    /// The labels in the order of the streams' numbers.
    pub fn as_slice(&self) -> &[Label]
        ensures { result.now ≡ self.now }
    {
        self.labels.as_slice()
    }
}
