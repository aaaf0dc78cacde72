//! What is shown of the dependencies of a topology.
ghost use Rattle.std.specs.Prelude.{◌<◌, length};

use crate::inputs::valid_of;
use crate::texts::Text;
use anyhow::Result;
use blz_outside::MemFiles;
use std::alloc::Global;
use topo_types::{Attrs, Valid, upholds};

/// A line for each dependency of the topology of a file, with its attributes and the streams that uphold it.
pub(crate) fn upheld_shown(alloc: Global, name: &str, files: &mut MemFiles) -> Result<Vec<u8>> {
    let valid = valid_of(alloc, name, files)?;
    all_shown(alloc, &valid)
}

// The same of a topology.
fn all_shown(alloc: Global, valid: &Valid) -> Result<Vec<u8>> {
    let mut shown = Text::new(alloc);
    for fd in 0..valid.fd_count() {
        dependency_shown(valid, fd, &mut shown);
    }
    shown.into_bytes()
}

// Adds the line of a dependency.
fn dependency_shown(valid: &Valid, fd: u32, shown: &mut Text)
    requires { fd < length valid.now.view.fds }
{
    let sides = valid.fd(fd);
    names_shown(valid, sides.from, shown);
    shown.add(b"to ");
    names_shown(valid, sides.to, shown);
    shown.add(b"upheld by");
    for stream in 0..valid.stream_count() {
        if upholds(valid, stream, fd) {
            shown.add(b" ");
            shown.add(valid.stream_name(stream).as_str().as_bytes());
        }
    }
    shown.add(b"\n");
}

// Adds the names of a set's attributes, each before a blank.
fn names_shown(valid: &Valid, set: Attrs, shown: &mut Text) {
    for attribute in 0..64u8 {
        if set.has(attribute) && (attribute as usize) < valid.attr_names().len() {
            shown.add(valid.attr_name(attribute).as_str().as_bytes());
            shown.add(b" ");
        }
    }
}
