//! The word count that is built in: the files of its topology and of its modules.
ghost use Rattle.std.specs.Prelude.{◌≡◌, Some, IfOk, true};
ghost use Rattle.coord_synth.specs.Laws.{AreCoordinated};
ghost use Rattle.command_checks.specs.Ran.{RanAtOnce};
ghost use Rattle.blazes_commands.specs.Labels.BuiltIn.{built_in, planned_count, word_count};

use blz_outside::{End, Files, ReadFail};
use command_checks::{Stop, valid_topology};
use coord_synth::plan;
use std::alloc::Global;
use topo_forms::Valid;

const TOPOLOGY: &str = r#"format = 1
[[source]]
name = "tweets"
columns = ["id", "text", "batch"]
seal = ["batch"]
to = ["split.in"]
[[component]]
name = "split"
stock = "split"
columns = ["id", "text", "batch"]
split = "text"
[[component]]
name = "count"
module = "count.bloom"
replicas = 3
[[component]]
name = "commit"
module = "commit.bloom"
replicas = 3
[[stream]]
name = "words"
from = "split.out"
to = ["count.words"]
[[stream]]
name = "counts"
from = "count.counts"
to = ["commit.counts"]
[[stream]]
name = "commits"
from = "commit.commits"
"#;

const COUNT: &str = "module count_words;
input words(id, batch, at, word);
output counts(word, batch, n);
table seen(id, batch, at, word);
seen <= words;
counts <= group(seen, [word, batch], count as n);
";

const COMMIT: &str = "module commit;
input counts(word, batch, n);
output commits(word, batch, n);
table committed(word, batch, n);
committed <= counts;
commits <= committed;
";

// The built-in files, which are always there.
#[derive(Clone, Copy)]
struct BuiltIn;

// The text of the file of this name.
fn text_of(name: &str) -> &'static str
    ensures { result.now ≡ built_in name.now }
{
    match name {
        "wc.toml" => TOPOLOGY,
        "count.bloom" => COUNT,
        _ => COMMIT,
    }
}

impl Files for BuiltIn {
    ghost held = { λ _. Some (λ name. Some (built_in name)) };

    ghost steady = { λ _. true };

    ghost faults = { λ _. 0 };

    ghost use Rattle.std.proofs.Common.{rules};

    ghost steady_is_told = { λ files _. Prim.search rules };

    fn read(&mut self, name: &str, most: usize, into: &mut Vec<u8>) -> Result<End, ReadFail> {
        into.clear();
        let text = text_of(name);
        if text.len() > most {
            return Ok(End::More);
        }
        into.extend_from_slice(text.as_bytes())?;
        Ok(End::Whole)
    }
}

// The word count that is built in, by the checks of a topology in files.
fn word_count(alloc: Global) -> Result<Valid, Stop>
    ensures { RanAtOnce (λ valid. valid) result word_count }
{
    let mut files = BuiltIn;
    valid_topology(alloc, "wc.toml", &mut files)
}

/// The word count that is built in, under its plan.
pub fn planned_count(alloc: Global) -> Result<Valid, Stop>
    ensures ran { RanAtOnce (λ valid. valid.view) result planned_count }
    ensures coordinated { IfOk result (λ valid. AreCoordinated valid.view) }
{
    let written = word_count(alloc)?;
    Ok(plan(alloc, &written)?)
}
