//! What is shown of the data of a topology.
ghost use Rattle.topo_forms.specs.Data.{IsData};

use crate::inputs::{given_of, valid_of};
use crate::texts::Text;
use anyhow::Result;
use blz_outside::MemFiles;
use data_read::Data;
use std::alloc::Global;
use topo_types::Valid;

/// For each source of the topology of a file a line with its records and one with its declared partitions, as
/// the data of another file give them.
pub(crate) fn held_shown(
    alloc: Global,
    topology: &str,
    given: &str,
    files: &mut MemFiles,
) -> Result<Vec<u8>> {
    let valid = valid_of(alloc, topology, files)?;
    let given = given_of(alloc, &valid, given, files)?;
    sources_shown(alloc, &valid, &given)
}

// The same of data that were read.
fn sources_shown(alloc: Global, valid: &Valid, given: &Data) -> Result<Vec<u8>>
    requires { IsData valid.now.view given.now }
{
    let mut shown = Text::new(alloc);
    for source in 0..valid.source_count() {
        shown.add_line("rows", given.rows(source));
        shown.add_line("parts", given.parts(source));
    }
    shown.into_bytes()
}
