//! What a valid topology keeps of its parts.
ghost use Rattle.std.specs.Prelude.{◌≡◌};
ghost use Rattle.std.proofs.Common.{rules};

use bloom_forms::{Mode, Note, Program};
use blz_value::{Attrs, Faithful, Fd, Items, Str};
use fd_closure::AttrNames;
use std::alloc::AllocError;

/// A stream.
#[derive(Drop)]
pub struct KeptStream {
    pub name: Str,
    /// The component and the output from which it comes; a source has none.
    pub origin: Option<(u32, u32)>,
    /// The attribute of each column, where its name is one.
    pub columns: Items<Option<u8>>,
    /// The key of a source's seals.
    pub key: Option<Attrs>,
    /// The components and the ports to which it goes.
    pub to: Items<(u32, u32)>,
}

impl Clone for KeptStream {
    ghost is_clone = { λ one clone. clone ≡ one };

    fn clone(&self) -> Result<KeptStream, AllocError> {
        Ok(KeptStream {
            name: self.name.clone()?,
            origin: self.origin,
            columns: self.columns.clone()?,
            key: self.key,
            to: self.to.clone()?,
        })
    }
}

impl Faithful for KeptStream {
    ghost equal = { λ _ _ same. same };
}

/// A port with the attributes of its columns.
#[derive(Clone, Drop)]
pub struct KeptPort {
    pub name: Str,
    pub columns: Items<u8>,
}

impl Faithful for KeptPort {
    ghost equal = { Prim.search rules };
}

/// An output with the attributes and the roots of its columns, and its gate.
#[derive(Clone, Drop)]
pub struct KeptOutput {
    pub name: Str,
    pub columns: Items<Option<u8>>,
    pub roots: Items<Option<u8>>,
    pub gate: Attrs,
}

impl Faithful for KeptOutput {
    ghost equal = { Prim.search rules };
}

/// A component.
#[derive(Drop)]
pub struct KeptComponent {
    pub name: Str,
    pub program: Option<Program>,
    pub mode: Mode,
    pub replicas: u32,
    pub ports: Items<KeptPort>,
    pub outputs: Items<KeptOutput>,
    pub notes: Items<Items<Option<Note>>>,
}

// The program is made last, so that none is held at a later want of memory.
impl Clone for KeptComponent {
    ghost is_clone = { λ one clone. clone ≡ one };

    fn clone(&self) -> Result<KeptComponent, AllocError> {
        Ok(KeptComponent {
            name: self.name.clone()?,
            mode: self.mode,
            replicas: self.replicas,
            ports: self.ports.clone()?,
            outputs: self.outputs.clone()?,
            notes: self.notes.clone()?,
            program: Faithful::copied(&self.program)?,
        })
    }
}

impl Faithful for KeptComponent {
    ghost equal = { λ _ _ same. same };
}

/// The parts of a topology.
#[derive(Clone, Drop)]
pub struct Kept {
    /// The names of the attributes.
    pub attributes: AttrNames,
    /// The streams, sources first.
    pub streams: Items<KeptStream>,
    pub components: Items<KeptComponent>,
    pub fds: Items<Fd>,
}

impl Faithful for Kept {
    ghost equal = { Prim.search rules };
}
