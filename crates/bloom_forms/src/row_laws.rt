//! Laws of rows over runs, each the contract of a function that does nothing.
ghost use Rattle.bloom_forms.specs.RowLaws.{
  OneStepLaw,
  OutputsByRulesLaw,
  ConfluentRulesLaw,
  ConfluentOutputsLaw,
  SplitRulesLaw,
  SplitOutputsLaw,
  AnswersByKeyLaw,
  AnswersBySetLaw,
  KeyColumnsLaw,
  KeyClosureLaw,
  RulesKeepKeysLaw,
  OutputsKeepKeysLaw,
  RulesSeePortsLaw,
  OutputsSeePortsLaw,
  StockIsSilentLaw,
  ShardLaw,
};

/// The rows over one timestep are the one-step answer, and an output of a module has the rows of its
/// rules, over any timesteps.
pub fn rows_law()
    ensures answers { OneStepLaw }
    ensures rules { OutputsByRulesLaw }
{}

/// Where all uses of a rule are CR or CW, its rows over any timesteps are those of one timestep with
/// all their records, and no row is lost when records are added. So it is of an output towards which
/// all notes are CR or CW.
pub fn confluent_law()
    ensures rules { ConfluentRulesLaw }
    ensures outputs { ConfluentOutputsLaw }
{}

/// Where a key lies in the closure of a rule's gate, by dependencies that hold in the arriving
/// records jointly, the rows of the rule in each step are those that it has over the records of each
/// class by itself, for any classes by the values of the key. So it is of an output and its gate, and
/// of its one-step answer, where a stock body has no column twice. A key is a list of attributes; one
/// that is a set of them is the list of its members, which some columns have, and a closure holds,
/// exactly where they have and it holds the set.
pub fn split_law()
    ensures rules { SplitRulesLaw }
    ensures outputs { SplitOutputsLaw }
    ensures answers { AnswersByKeyLaw }
    ensures sets { AnswersBySetLaw }
    ensures columns { KeyColumnsLaw }
    ensures closure { KeyClosureLaw }
{}

/// The rows of a rule, and of an output, over the records of one value of a key have that value in the
/// columns whose roots are the attributes of the key, where a stock body has no column twice.
pub fn keys_law()
    ensures rules { RulesKeepKeysLaw }
    ensures outputs { OutputsKeepKeysLaw }
{}

/// A rule sees no more than the ports that it uses: without records there it has no rows. It has none
/// while nothing arrives at those to which it gives O. Where records that come before one timestep are
/// at other ports alone, and those that come after it at ports that aren't W, its rows are those of
/// one timestep with all records; and more records at ports that aren't W lose no row. So it is of an
/// output, silence aside, which holds of rules and of the outputs of stock bodies.
pub fn ports_law()
    ensures rules { RulesSeePortsLaw }
    ensures outputs { OutputsSeePortsLaw }
    ensures stock { StockIsSilentLaw }
{}

/// Where each port has a column and its attribute lies in the gate of an output, the one-step answer of
/// the output is that of the module's copies for the buckets of the column together.
pub fn shard_law()
    ensures { ShardLaw }
{}
