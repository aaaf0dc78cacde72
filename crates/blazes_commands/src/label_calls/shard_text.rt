//! The text of `shard`.
ghost use Rattle.std.specs.Prelude.{◌≡◌, ◌++◌, IfOk, OnOk, codes};
ghost use Rattle.std.specs.List.{flat_map};
ghost use Rattle.blz_value.specs.Text.{escaped};
ghost use Rattle.blazes_commands.specs.Labels.ShardText as spec;

use bloom_parse::print;
use blz_value::{Str, write_escaped};
use shard_route::ShardFile;
use std::alloc::{AllocError, Global};

// Adds a line with these words and the length of a text, and the text.
fn push_part(alloc: Global, words: &[u8], text: &[u8], into: &mut Vec<u8>) -> Result<(), AllocError>
    ensures { OnOk result (into.new.items ≡ into.old.items ++ spec.part words.now text.now) }
{
    into.extend_from_slice(words)?;
    into.extend_from_slice(b" ")?;
    into.extend_from_slice(text.len().to_string(alloc)?.as_bytes())?;
    into.extend_from_slice(b"\n")?;
    into.extend_from_slice(text)?;
    into.extend_from_slice(b"\n")
}

// The words before the length of a module.
fn module_words(alloc: Global, name: &Str) -> Result<Vec<u8>, AllocError>
    ensures { IfOk result (λ words. words.items ≡ codes "module " ++ escaped name.now) }
{
    let mut words = Vec::from_slice(alloc, b"module ")?;
    write_escaped(name.as_str(), &mut words)?;
    Ok(words)
}

fn push_module(alloc: Global, file: &ShardFile, into: &mut Vec<u8>) -> Result<(), AllocError>
    ensures { OnOk result (into.new.items ≡ into.old.items ++ spec.module_part file.now) }
{
    let words = module_words(alloc, &file.name)?;
    let module = print(alloc, &file.module)?;
    push_part(alloc, &words, &module, into)
}

fn push_modules(alloc: Global, files: &[ShardFile], into: &mut Vec<u8>) -> Result<(), AllocError>
    ensures { OnOk result (into.new.items ≡ into.old.items ++ flat_map spec.module_part files.now) }
{
    for file in files {
        push_module(alloc, file, into)?;
    }
    Ok(())
}

/// The text of `shard`: this text of the topology with copies, and the printed modules of the copies.
pub fn shard_text(
    alloc: Global,
    topology: &[u8],
    files: &[ShardFile],
) -> Result<Vec<u8>, AllocError>
    ensures { IfOk result (λ text. text.items ≡ spec.shard_text topology.now files.now) }
{
    let mut text = Vec::new(alloc);
    push_part(alloc, b"topology", topology, &mut text)?;
    push_modules(alloc, files, &mut text)?;
    Ok(text)
}
