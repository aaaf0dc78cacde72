//! The law of reading and writing, the contract of a function that does nothing.
ghost use Rattle.topo_read.specs.Laws.{ReadBack};

/// The table that a topology is written as is read as the same topology, whatever topology of
/// format 2 the form allows.
pub fn read_back_law()
    ensures { ReadBack }
{}
