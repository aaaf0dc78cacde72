//! How many rows and parts there are.
ghost use Rattle.std.specs.Prelude.{◌≡◌, ◌<◌, ◌≤◌, IfSome, OnOk, length};
ghost use Rattle.topo_forms.specs.DataCounts as counts;
ghost use Rattle.data_read.specs.Counting as spec;
ghost use Rattle.data_read.specs.Gives.{Gives};
ghost use Rattle.topo_forms.specs.View as view;

use crate::fault::{DataFault, too_many};
use topo_forms::{SourceLists, Valid};

pub(crate) const MAX_ROWS: usize = 65_536;

// The source with which rows and parts pass the limit.
fn passed_at(sources: &[SourceLists]) -> Option<usize>
    ensures place { result ≡ spec.passed_at 0 0 sources.now }
    ensures within { IfSome result (λ source. source < length sources.now) }
{
    let mut so_far: usize = 0;
    for (place, lists) in sources.iter().enumerate() {
        so_far = so_far
            .saturating_add(lists.rows.len())
            .saturating_add(lists.parts.len());
        if so_far > MAX_ROWS {
            return Some(place);
        }
    }
    None
}

/// TooMany where rows and parts pass 65,536, repeats included, with the source at which they do.
pub(crate) fn counted(valid: &Valid, sources: &[SourceLists]) -> Result<(), DataFault>
    requires { length sources.now ≤ length valid.now.view.streams }
    ensures count { Gives (λ _. tt) result (spec.counted valid.now.view sources.now) }
    ensures few { OnOk result (counts.AreFew sources.now) }
{
    valid.known();
    match passed_at(sources) {
        Some(source) => Err(too_many(valid.stream_name(source as u32))),
        None => Ok(()),
    }
}
