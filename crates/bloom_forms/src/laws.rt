//! Laws of a step and of what an expression reads, each the contract of a function that does nothing.
ghost use Rattle.std.specs.Prelude.{ℕ, List};
ghost use Rattle.bloom_forms.specs.Query.{Name};
ghost use Rattle.bloom_forms.specs.Form.{Accepted};
ghost use Rattle.bloom_forms.specs.Heads.{IsOrdered};
ghost use Rattle.bloom_forms.specs.Checks.{IsChecked};
ghost use Rattle.bloom_forms.specs.Laws.{EndSolves, HasOneSolution, GivesTables, GivesOutputs, ConeUnfolds, DirectUnfolds, MomentaryUnfolds, StandsStill, StepsSame, HoldsByKind, EndsOver};
ghost use Rattle.bloom_forms.specs.declared.program.Program.TheVariants.{Module, Split, Latest, Number};

/// A step as equations: what the collections hold once the heads are taken is the one solution, and
/// the new tables and the outputs are what it gives to the tables and outputs.
pub fn step_law()
    ensures solved { EndSolves }
    ensures one { HasOneSolution }
    ensures tables { GivesTables }
    ensures outputs { GivesOutputs }
{}

/// After a step the next one, with nothing arriving, leaves the tables as they are, and each of its
/// outputs lies within that of the step; over empty tables it puts out nothing.
pub fn standing_law()
    ensures modules { (a : Accepted) → IsChecked a.form a.heads → StandsStill (Module a) }
    ensures split { (columns : List Name) (split : ℕ) → StandsStill (Split columns split) }
    ensures latest { (columns : List Name) (keys : List ℕ) → StandsStill (Latest columns keys) }
    ensures number { (columns : List Name) → StandsStill (Number columns) }
{}

/// What a step makes is the same for any two orders of heads in which each comes after those that its
/// rules read.
pub fn order_law()
    ensures { (a : Accepted) (heads : List ℕ) → IsOrdered a.form.collections a.form.rules a.heads → IsOrdered a.form.collections a.form.rules heads → StepsSame a heads }
{}

/// What the collections hold over given tables is what their kinds say: ports what arrives, tables
/// what is given, scratches and outputs the rows of their rules. What they hold at the end of a step
/// is so over its new tables.
pub fn tables_law()
    ensures over { (a : Accepted) → IsOrdered a.form.collections a.form.rules a.heads → HoldsByKind a }
    ensures end { (a : Accepted) → IsOrdered a.form.collections a.form.rules a.heads → EndsOver a }
{}

/// What an expression reads, one level at a time: in a cone are the collections that the expression
/// names, and the cones of the bodies of their rules; an expression reads the collections that it
/// names, and what the bodies of the rules of those scratches read; it is momentary where it names an
/// input, or a scratch that has a momentary rule.
pub fn reads_law()
    ensures cone { ConeUnfolds }
    ensures direct { DirectUnfolds }
    ensures momentary { MomentaryUnfolds }
{}
