//! Laws of planned topologies, each the contract of a function that does nothing.
ghost use Rattle.coord_synth.specs.Laws.{AfterPlanning, PlansKeepValid, PlansKeepOrder, PlansSetModes};

/// A plan of a valid topology is valid, whichever steps are taken.
pub fn plan_law()
    ensures { PlansKeepValid }
{}

/// A planned topology differs in modes alone, and what is written Order stays so, whichever steps
/// are taken.
pub fn plan_modes_law()
    ensures modes { PlansSetModes }
    ensures orders { PlansKeepOrder }
{}

/// After planning no stream is worse than Run, and each stream of a component in mode Pass or Seal
/// is Seal or Async.
pub fn after_planning_law()
    ensures { AfterPlanning }
{}
