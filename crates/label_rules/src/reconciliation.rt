//! The label of an output over its paths.
ghost use Rattle.std.specs.Prelude.{◌≡◌, fold, map};
ghost use Rattle.std.specs.List.{list_all};
ghost use Rattle.label_rules.specs.Reconciliation as spec;

use crate::label::{Base, Label, PathLabel, severity};
use bloom_forms::Mode;
use blz_value::{Attrs, Fd};
use fd_closure::compatible;

fn is_covered(key: Attrs, fds: &[Fd], path: PathLabel) -> bool
    ensures { result ≡ spec.is_covered key fds.now path }
{
    match path {
        PathLabel::Seal(own) => own.bits() == key.bits(),
        PathLabel::NdRead(gate, _) => compatible(gate, key, fds),
        PathLabel::Async
        | PathLabel::Run
        | PathLabel::Inst
        | PathLabel::Diverge
        | PathLabel::Taint => false,
    }
}

fn all_are_covered(key: Attrs, fds: &[Fd], paths: &[PathLabel]) -> bool
    ensures { result ≡ list_all (spec.is_covered key fds.now) paths.now }
{
    paths.iter().all(|path| is_covered(key, fds, *path))
}

/// Whether an output with these path labels is protected: the mode is Seal, and each path label is
/// Seal of its key or an NdRead with whose gate the key is compatible.
pub fn is_protected(paths: &[PathLabel], mode: Mode, fds: &[Fd]) -> bool
    ensures { result ≡ spec.is_protected paths.now mode fds.now }
{
    match mode {
        Mode::Seal(key) => all_are_covered(key, fds, paths),
        Mode::Free | Mode::Pass(_) | Mode::Order => false,
    }
}

fn base_label(base: Base) -> Label
    ensures { result ≡ spec.base_label base }
{
    match base {
        Base::Seal(key) => Label::Seal(key),
        Base::Async => Label::Async,
        Base::Run => Label::Run,
    }
}

fn settled(protected: bool, replicated: bool, path: PathLabel) -> Label
    ensures { result ≡ spec.settled protected replicated path }
{
    match path {
        PathLabel::Seal(key) => Label::Seal(key),
        PathLabel::Async => Label::Async,
        PathLabel::Run => Label::Run,
        PathLabel::Inst => Label::Inst,
        PathLabel::Diverge => Label::Diverge,
        PathLabel::Taint if replicated => Label::Diverge,
        PathLabel::Taint => Label::Run,
        PathLabel::NdRead(_, base) if protected => base_label(base),
        PathLabel::NdRead(_, _) if replicated => Label::Inst,
        PathLabel::NdRead(_, _) => Label::Run,
    }
}

fn worse(a: Label, b: Label) -> Label
    ensures { result ≡ spec.worse a b }
{
    if severity(a) < severity(b) { b } else { a }
}

fn worst_from(start: Label, protected: bool, replicated: bool, paths: &[PathLabel]) -> Label
    ensures { result ≡ fold spec.worse start (map (spec.settled protected replicated) paths.now) }
{
    let mut label = start;
    for path in paths {
        label = worse(label, settled(protected, replicated, *path));
    }
    label
}

fn worst_settled(protected: bool, replicated: bool, paths: &[PathLabel]) -> Label
    ensures { result ≡ spec.first_worst (map (spec.settled protected replicated) paths.now) }
{
    match paths {
        [] => Label::Async,
        [first, rest @ ..] => worst_from(
            settled(protected, replicated, *first),
            protected,
            replicated,
            rest,
        ),
    }
}

/// The one label of an output over the labels of its paths, in their order. `mode` is that of
/// the component, `replicated` says whether it has more than one replica, and `fds` are the
/// dependencies that are usable there.
pub fn reconcile(paths: &[PathLabel], mode: Mode, replicated: bool, fds: &[Fd]) -> Label
    ensures rule { spec.IsReconciled paths.now mode replicated fds.now result }
    ensures computed { result ≡ spec.reconcile paths.now mode replicated fds.now }
{
    worst_settled(is_protected(paths, mode, fds), replicated, paths)
}
