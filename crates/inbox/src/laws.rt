//! The laws of executions and of pools, each the contract of a function that does nothing.
ghost use Rattle.inbox.specs.Laws.{
  ListsGrow,
  AllIsSent,
  AllWasSentBefore,
  ListsDontRepeat,
  SealedTimesteps,
  SequencerLaw,
};
ghost use Rattle.inbox.specs.Pools.{
  PlacedIsLater,
  LaterInSteps,
  StandsLater,
  KeepsLater,
  GivenLater,
  ReadsLater,
};

/// In all executions, complete or not, with forgets or without: each legal step only lengthens emitted
/// lists and logs; what was heard or logged stands in the emitted list of its feed, and what it is after
/// a step stood there before the step (`before`); in an emitted list no
/// record and no seal of a partition comes again; and under Seal a record stands in a timestep
/// exactly where it was heard and waits for nothing.
pub fn execution_law()
    ensures grow { ListsGrow }
    ensures sent { AllIsSent }
    ensures before { AllWasSentBefore }
    ensures repeats { ListsDontRepeat }
    ensures sealed { SealedTimesteps }
{}

/// What a replica of an Order component has put out is what its program gives over a beginning of the log,
/// one entry a timestep: as far as the longest of its lives came.
pub fn sequencer_law()
    ensures { SequencerLaw }
{}

/// A pool may get records between two calls of an inbox or a log, since each id that it gave keeps its
/// record. A pool is later than another where it gave all ids of that, for the same records: so it is
/// after each record that is placed (`placed`), and after any number of them (`steps`). By a later pool
/// an inbox stands for the batches for which it stood (`heard`), and keeps only ids that the pool gave
/// (`kept`); the ids of a log are given (`given`) and are those of the same records (`reads`). So call
/// after call an inbox answers what each batch sets off after all before it.
pub fn pool_law()
    ensures placed { PlacedIsLater }
    ensures steps { LaterInSteps }
    ensures heard { StandsLater }
    ensures kept { KeepsLater }
    ensures given { GivenLater }
    ensures reads { ReadsLater }
{}
