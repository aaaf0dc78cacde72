//! The laws of labels and executions, each the contract of a function that does nothing.
ghost use Rattle.confluence.specs.Laws.{
  SealMeansCarries,
  GoodPathsOfAsync,
  GoodPathsOfRun,
  ProtectedMeansGuarded,
  GoodInputsOfAsync,
  GoodInputsOfRun,
  HonestLaw,
  RulesLaw,
  OutputsLaw,
  DeterminedOutputs,
  RegionLaw,
  OpenRegionLaw,
  RestartLaw,
  StrongRestartLaw,
  ValidatedLabelsAreSound,
  ValidatedLabelsSurviveRestarts,
};
ghost use Rattle.inbox.specs.StreamLaws.{ClosureLaw};

/// A stream that is Seal of a key carries that key, and has its columns.
pub fn seal_law()
    ensures { SealMeansCarries }
{}

/// Outside cycles, where an output is Seal or Async, each path to it is, and none has an O note unless
/// the output is protected. Where the component has several replicas and the output is Run, each path
/// is Run or better, and again none has an O note unless the output is protected.
pub fn good_paths_law()
    ensures seals { GoodPathsOfAsync }
    ensures replicated { GoodPathsOfRun }
{}

/// The component of a protected output is in mode Seal. Each port with a stream and a note towards
/// the output has the columns of the key, carries the key unless the note is OR, and the key lies in
/// the closure of the note's gate. The closure of a gate stays in the columns of such a port.
pub fn protected_law()
    ensures guarded { ProtectedMeansGuarded }
    ensures columns { ClosureLaw }
{}

/// Where a cyclic region is Seal or Async, no stream leads into it from outside, or each such stream
/// is Seal or Async and no note of the region is O. Where the region has several replicas and is Run,
/// each such stream is Run or better and no note is O.
pub fn cyclic_law()
    ensures seals { GoodInputsOfAsync }
    ensures replicated { GoodInputsOfRun }
{}

/// After any legal steps, over data that hold the dependencies, a seal in an emitted list of a stream
/// that carries a key tells the truth: it counts the records of its partition before it, and none of
/// them comes after it, nor another seal of it.
pub fn honest_law()
    ensures { HonestLaw }
{}

/// In mode Seal, over the records of one partition that stand in the timesteps of the first batches of
/// a life, a rule or an output has no rows where the partition isn't whole. Where it is whole, the rows
/// are those of one timestep, which has at each carrying port all records of the partition that the
/// feeds of the port have emitted. This asks that each port that is W and has a stream carries the key.
pub fn partition_law()
    ensures rules { RulesLaw }
    ensures outputs { OutputsLaw }
{}

/// In a complete execution, with forgets or without, the contents of an output outside cycles that is
/// protected, or to which no path has an O note, are the one-step answer to all that arrives.
pub fn determined_outputs()
    ensures { DeterminedOutputs }
{}

/// The labels of a valid topology are sound. Over data that hold the dependencies, and for each stream
/// such that its component, and all from which it can be reached, have a body: where it is Seal or
/// Async, it has equal contents in all replicas of any two complete executions, and these are the
/// one-step answer to all that arrives; where it is Run, it has equal contents in all replicas of each
/// complete execution. The second clause says the same of all streams, with a body or without, and over
/// executions with forgets.
pub fn region_law()
    ensures sound { RegionLaw }
    ensures unbodied { OpenRegionLaw }
{}

/// The same over complete executions in which instances forget and hear again. Without a cyclic region
/// a stream that is Seal or Async has equal contents in all replicas of any two of them (`acyclic`).
/// With cyclic regions or without, all that `region_law` says holds (`strong`).
pub fn restart_law()
    ensures acyclic { RestartLaw }
    ensures strong { StrongRestartLaw }
{}

/// A topology that validation has accepted is valid, so its labels are sound, over complete executions
/// without forgets and over those with them.
pub fn validated_law()
    ensures sound { ValidatedLabelsAreSound }
    ensures restarts { ValidatedLabelsSurviveRestarts }
{}
