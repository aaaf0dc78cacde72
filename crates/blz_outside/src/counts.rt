//! Counts of calls and of faults.
ghost use Rattle.std.specs.Prelude.{◌≡◌};
ghost use Rattle.blz_outside.specs.Counts.{raised_count, Rose};

// One more, up to the last value of a count.
pub(crate) fn raise(count: u64) -> u64
    ensures value { result ≡ raised_count count }
    ensures rose { Rose count result }
{
    count.saturating_add(1)
}
