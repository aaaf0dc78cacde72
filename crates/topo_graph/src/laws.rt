//! Laws of other modes, each the contract of a function that does nothing.
ghost use Rattle.topo_forms.specs.OtherModes.{OtherModesLaw};
ghost use Rattle.topo_forms.specs.Laws.{WithModeLaw};

/// A valid topology stays valid with other modes, where no Order is taken away and no member of a
/// cycle gets a key.
pub fn other_modes_law()
    ensures { OtherModesLaw }
{}

/// A topology without a fault has none with another mode of one component, where the mode may be
/// written there, and its view is the same but for that mode.
pub fn with_mode_law()
    ensures { WithModeLaw }
{}
