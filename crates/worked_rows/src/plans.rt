//! The plans of a topology that the program doesn't make, and the topology with another mode, as they are
//! written.
use anyhow::{Result, ensure};
use blz_outside::MemFiles;
use coord_synth::{order_plan, seal_plan};
use std::alloc::Global;
use topo_read::{topology_of, write};
use topo_types::{Mode, Valid, WithMode};
use worked_calls::valid_of;

// A planned topology, as it is written.
fn text_of(alloc: Global, planned: &Valid) -> Result<Vec<u8>> {
    Ok(write(alloc, &topology_of(alloc, planned)?)?)
}

// A topology with its first component free, as it is written.
fn freed_text(alloc: Global, valid: &Valid) -> Result<Vec<u8>> {
    ensure!(valid.component_count() > 0, "there is a component");
    ensure!(valid.mode(0) != Mode::Order, "it isn't under a sequencer");
    text_of(alloc, &valid.with_mode(alloc, 0, Mode::Free)?)
}

/// The plan of the topology of a file as it is written, without sequencers for `seals FILE`, without
/// keys for `sequencers FILE`; the topology with its first component free for `freed FILE`; None for
/// other words.
pub(crate) fn plan_shown(
    alloc: Global,
    words: &[String],
    files: &mut MemFiles,
) -> Result<Option<Vec<u8>>> {
    let [kind, name] = words else {
        return Ok(None);
    };
    match kind.as_str() {
        "seals" => {
            let valid = valid_of(alloc, name.as_str(), files)?;
            Ok(Some(text_of(alloc, &seal_plan(alloc, &valid)?)?))
        }
        "sequencers" => {
            let valid = valid_of(alloc, name.as_str(), files)?;
            Ok(Some(text_of(alloc, &order_plan(alloc, &valid)?)?))
        }
        "freed" => {
            let valid = valid_of(alloc, name.as_str(), files)?;
            Ok(Some(freed_text(alloc, &valid)?))
        }
        _ => Ok(None),
    }
}
