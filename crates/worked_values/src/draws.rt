//! The draws of a seed.
use crate::lines::Lines;
use sched_turns::Draws;
use std::alloc::AllocError;

/// Shows the first draw of the seed 0.
pub(crate) fn show(lines: &mut Lines) -> Result<(), AllocError> {
    let number = Draws::of(0).next_number();
    lines.number("the first draw", i64::try_from(number).unwrap_or(i64::MAX))
}
