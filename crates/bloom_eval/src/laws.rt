//! Laws of what a step answers, each the contract of a function that does nothing.
ghost use Rattle.std.specs.Prelude.{ℕ, List};
ghost use Rattle.bloom_forms.specs.Form.{Accepted};
ghost use Rattle.bloom_forms.specs.Heads.{IsOrdered};
ghost use Rattle.bloom_eval.specs.Laws.{CountsSame};

/// The sets that count for TooManyRows are the same for any two orders of heads in which each comes
/// after those that its rules read.
pub fn counted_law()
    ensures { (a : Accepted) (heads : List ℕ) → IsOrdered a.form.collections a.form.rules a.heads → IsOrdered a.form.collections a.form.rules heads → CountsSame a heads }
{}
