//! The topology in a file.
ghost use Rattle.std.specs.Prelude.{IfOk};
ghost use Rattle.topo_read.specs.Document.{document_of};
ghost use Rattle.topo_forms.specs.Allowed.{IsAllowed};
ghost use Rattle.command_checks.specs.Checks as check;
ghost use Rattle.command_checks.specs.Ran.{Gives, Ran};
ghost use Rattle.command_checks.specs.Ends.{files_states, source};

use crate::file::read_file;
use crate::stop::{Stop, refused};
use blz_outside::Files;
use report_lines::Refusal;
use std::alloc::Global;
use topo_forms::Topology;
use topo_read::{TopoTextFault, read};

/// The most bytes of a topology file.
pub const TOPOLOGY_LIMIT: usize = 262_144;

// The topology that is written in these bytes.
fn topology_in(alloc: Global, bytes: &[u8]) -> Result<Topology, Stop>
    ensures gives { Gives (λ topology. topology) result (check.topology_in (document_of bytes.now)) }
    ensures allowed { IfOk result IsAllowed }
{
    match read(alloc, bytes) {
        Ok(topology) => Ok(topology),
        Err(TopoTextFault::NotToml) => Err(refused(alloc, &Refusal::NotToml)),
        Err(TopoTextFault::Form { path }) => Err(refused(alloc, &Refusal::Form { path })),
        Err(TopoTextFault::NoMemory) => Err(Stop::NoMemory),
    }
}

/// The topology in the file of this name.
pub fn topology_file<F: Files>(alloc: Global, name: &str, files: &mut F) -> Result<Topology, Stop>
    ensures ran { Ran (λ topology. topology)
        (files_states (source (F.held files.old) (F.steady files.old) (F.faults files.old))
        (source (F.held files.new) (F.steady files.new) (F.faults files.new)))
        result (check.topology_file name.now) }
    ensures allowed { IfOk result IsAllowed }
{
    let bytes = read_file(alloc, name, TOPOLOGY_LIMIT, files)?;
    topology_in(alloc, &bytes)
}
