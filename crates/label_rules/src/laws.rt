//! Laws of the rules, each the contract of a function that does nothing.
ghost use Rattle.label_rules.specs.Laws.{SeverityLaw, FirstWorstLaw, DivergesAlongPaths, DivergesAtOutputs, NoBetterThanGiven, NoBetterThanRead, MonotoneInGiven, MonotoneInRead};

/// Two labels have equal severity exactly where they are equal or both are Seal.
pub fn severity_law()
    ensures { SeverityLaw }
{}

/// There is one first label of greatest severity, and it is the one that is computed.
pub fn first_worst_law()
    ensures { FirstWorstLaw }
{}

/// Diverge never gets better.
pub fn diverge_law()
    ensures path { DivergesAlongPaths }
    ensures output { DivergesAtOutputs }
{}

/// No output is better than a label that goes into one of its paths, but of Inst over CW or OW
/// into a component with one replica, where it is Run at best. The same holds of the labels as
/// they are read.
pub fn no_better_law()
    ensures given { NoBetterThanGiven }
    ensures read { NoBetterThanRead }
{}

/// Where one label that goes in is less severe and all else is the same, the output is no more
/// severe. The same holds where a label is no more severe as it is read.
pub fn monotone_law()
    ensures given { MonotoneInGiven }
    ensures read { MonotoneInRead }
{}
