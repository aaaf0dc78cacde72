//! Laws of notes, roots, copies, good tables, feeding and uses, each the contract of a function that
//! does nothing.
ghost use Rattle.std.specs.Prelude.{◌≡◌, List};
ghost use Rattle.bloom_forms.specs.Checks.{IsChecked};
ghost use Rattle.bloom_forms.specs.Form.{Form, Accepted};
ghost use Rattle.bloom_forms.specs.Heads.{IsOrdered};
ghost use Rattle.bloom_forms.specs.Query.{Name};
ghost use Rattle.bloom_forms.specs.Proper.{IsProper};
ghost use Rattle.bloom_forms.specs.declared.program.Program.{Program};
ghost use Rattle.bloom_forms.specs.CopiesLaw.{ExpressionsHaveOrigins, RulesHaveOrigins, OutputsHaveOrigins};
ghost use Rattle.bloom_forms.specs.HeadRoots.{roots_table};
ghost use Rattle.bloom_forms.specs.NoteLaws.{CoversLaw, CombineLaw};
ghost use Rattle.bloom_forms.specs.ReadLaws.{GoodByRules, OnlyTablesAreGood, GoodByClosure, ReadsGoodByClosure, FeedsByRules, FeedsByClosure, UsesByCone, UsesHaveGate};
ghost use Rattle.bloom_forms.specs.Roots.{Roots};
ghost use Rattle.bloom_forms.specs.RootsLaw.{AreRootsOf};

/// To cover is an order among notes.
pub fn covers_law()
    ensures { CoversLaw }
{}

/// Two notes combine to the least note that covers both, so neither their order nor how often
/// each is taken makes a difference.
pub fn combine_law()
    ensures { CombineLaw }
{}

/// The roots of all collections are the one table that is what the names of the ports' columns and
/// the rules say, so nothing depends on which of the possible orders of heads is taken.
pub fn roots_law()
    ensures solved { (names : List Name) (a : Accepted) → IsOrdered a.form.collections a.form.rules a.heads → AreRootsOf names a.form (roots_table names a) }
    ensures one { (names : List Name) (a : Accepted) (table : List Roots) → IsOrdered a.form.collections a.form.rules a.heads → AreRootsOf names a.form table → table ≡ roots_table names a }
{}

/// One record, which arrived in this step or an earlier one at a port that is read, is what all columns of
/// a row with roots are copied from: so it is of each row of an expression, of each row of a rule
/// with the roots of the rule's head, and of each row of an output.
pub fn copies_law()
    ensures expressions { (names : List Name) (a : Accepted) → IsChecked a.form a.heads → ExpressionsHaveOrigins names a }
    ensures rules { (names : List Name) (a : Accepted) → IsChecked a.form a.heads → RulesHaveOrigins names a }
    ensures outputs { (names : List Name) (program : Program) → IsProper program → OutputsHaveOrigins names program }
{}

/// The good tables are those whose rules are ones that a good table may have, told of the finished
/// set. One closure tells whether a table is good, and whether all tables that an expression reads
/// are.
pub fn good_law()
    ensures recursion { (a : Accepted) → IsChecked a.form a.heads → GoodByRules a }
    ensures tables { (a : Accepted) → IsChecked a.form a.heads → OnlyTablesAreGood a }
    ensures closed { (a : Accepted) → IsChecked a.form a.heads → GoodByClosure a }
    ensures read { (a : Accepted) → IsChecked a.form a.heads → ReadsGoodByClosure a }
{}

/// A table is fed by the ports that its rules read, and by those that feed the tables which its rules
/// read; and it feeds a table that an expression reads where it is behind the expression.
pub fn feeds_law()
    ensures recursion { (a : Accepted) → IsChecked a.form a.heads → FeedsByRules a.form }
    ensures read { (a : Accepted) → IsChecked a.form a.heads → FeedsByClosure a.form }
{}

/// A rule uses the ports that are in the cone of its body and no others, and each use that is O has
/// the rule's gate.
pub fn uses_law()
    ensures cone { (a : Accepted) → IsChecked a.form a.heads → UsesByCone a.form }
    ensures gate { (form : Form) → UsesHaveGate form }
{}
