//! Labels of streams and of paths.
ghost use Rattle.std.specs.Prelude.{◌≡◌};
ghost use Rattle.label_rules.specs.Label as spec;

use blz_value::Attrs;

/// How much the contents of a stream depend on the order in which messages came, from the best to
/// the worst.
#[derive(Clone, Copy, PartialEq, Eq)]
pub enum Label {
    /// Equal under every schedule, and a seal that is sent is true: its partition of this key is
    /// whole.
    Seal(Attrs),
    /// Equal under every schedule.
    Async,
    /// Equal in all replicas; another schedule may give others.
    Run,
    /// They may differ from replica to replica.
    Inst,
    /// They may differ from replica to replica, and so may the state behind them.
    Diverge,
}

/// The label of the stream that a read takes, which the output has where the read is protected.
#[derive(Clone, Copy, PartialEq, Eq)]
pub enum Base {
    Seal(Attrs),
    Async,
    Run,
}

/// The label of a path from a port to an output, for one stream into the port.
#[derive(Clone, Copy, PartialEq, Eq)]
pub enum PathLabel {
    Seal(Attrs),
    Async,
    Run,
    Inst,
    Diverge,
    /// State that depends on the order of arrival.
    Taint,
    /// A read that depends on the order of arrival by this gate, of a stream with this label.
    NdRead(Attrs, Base),
}

/// How bad a label is, from 1 for Seal to 5 for Diverge.
pub fn severity(label: Label) -> u8
    ensures { result ≡ spec.severity label }
{
    match label {
        Label::Seal(_) => 1,
        Label::Async => 2,
        Label::Run => 3,
        Label::Inst => 4,
        Label::Diverge => 5,
    }
}
